//! Instructions from their operations and routes, for those who write programs.
ghost use Rattle.std.specs.Prelude.{◌≡◌, ◌≢◌, ℕ, ◌<◌, All, Some};
ghost use Rattle.raw_switch_isa.specs.Ends.{IsSource, route_source};
ghost use Rattle.raw_switch_isa.specs.Made.{unrouted, nop, halt, jump, beqz, bnez, bnezd, source_field, move_from, with_routes, with_route, IsNewRoute};
ghost use Rattle.raw_switch_isa.specs.Instruction.{IsSwitchIns};

use crate::instruction::{SwitchIns, SwitchSource};
use crate::table::SwitchOp;

// The code of a route, as the field of an instruction has it.
fn route_code(routes: &[u8; 10], output: usize) -> u8
    ensures { result < 6 }
{
    match routes.get(output) {
        Some(code) if *code < 6 => *code,
        _ => 0,
    }
}

/// The codes of the routes to the ten outputs, as an instruction has them: 0 where one is no code.
pub fn route_codes(routes: &[u8; 10]) -> [u8; 10]
    ensures { All (λ code. code < 6) result }
{
    [
        route_code(routes, 0),
        route_code(routes, 1),
        route_code(routes, 2),
        route_code(routes, 3),
        route_code(routes, 4),
        route_code(routes, 5),
        route_code(routes, 6),
        route_code(routes, 7),
        route_code(routes, 8),
        route_code(routes, 9),
    ]
}

impl SwitchSource {
    /// The value of an instruction's field `src` for a move from here: a register's number from 0 to 3, an
    /// input's end index, from 0 to 9, and 4.
    pub fn field(self) -> u8
        requires { IsSource self }
        ensures value { result ≡ source_field self }
        ensures small { result < 14 }
    {
        match self {
            SwitchSource::Register(register) => register,
            SwitchSource::Input(input) => 4 + input,
        }
    }
}

impl SwitchIns {
    // The operation with these values of its fields, and no route.
    fn unrouted(op: SwitchOp, rd: u8, src: u8, target: u16) -> SwitchIns
        requires { IsSwitchIns (unrouted op rd src target) }
        ensures { result ≡ unrouted op rd src target }
    {
        SwitchIns {
            op,
            rd,
            src,
            target,
            rsel: 0,
            routes: [0; 10],
        }
    }

    /// `nop`.
    pub fn nop() -> SwitchIns
        ensures { result ≡ nop }
    {
        SwitchIns::unrouted(SwitchOp::Nop, 0, 0, 0)
    }

    /// `halt`.
    pub fn halt() -> SwitchIns
        ensures { result ≡ halt }
    {
        SwitchIns::unrouted(SwitchOp::Halt, 0, 0, 0)
    }

    /// `j TARGET`, where the target is the number of an instruction.
    pub fn jump(target: u16) -> SwitchIns
        ensures { result ≡ jump target }
    {
        SwitchIns::unrouted(SwitchOp::Jump, 0, 0, target)
    }

    /// `beqz rN, TARGET`, for register N of the switch.
    pub fn beqz(register: u8, target: u16) -> SwitchIns
        requires { register < 4 }
        ensures { result ≡ beqz register target }
    {
        SwitchIns::unrouted(SwitchOp::Beqz, register, 0, target)
    }

    /// `bnez rN, TARGET`.
    pub fn bnez(register: u8, target: u16) -> SwitchIns
        requires { register < 4 }
        ensures { result ≡ bnez register target }
    {
        SwitchIns::unrouted(SwitchOp::Bnez, register, 0, target)
    }

    /// `bnezd rN, TARGET`.
    pub fn bnezd(register: u8, target: u16) -> SwitchIns
        requires { register < 4 }
        ensures { result ≡ bnezd register target }
    {
        SwitchIns::unrouted(SwitchOp::Bnezd, register, 0, target)
    }

    /// `move rN, SOURCE`.
    pub fn move_from(register: u8, source: SwitchSource) -> SwitchIns
        requires register { register < 4 }
        requires source { IsSource source }
        ensures { result ≡ move_from register source }
    {
        SwitchIns::unrouted(SwitchOp::Move, register, source.field(), 0)
    }

    /// The instruction with these routes in place of its own: for each output, by its end index, 0 for
    /// no route, and 1 to 5 for the inputs N, E, S, W, P of the output's own network.
    pub fn with_routes(self, routes: [u8; 10]) -> SwitchIns
        requires { All (λ code. code < 6) routes }
        ensures { result ≡ with_routes self routes }
    {
        SwitchIns {
            rsel: 0,
            routes,
            ..self
        }
    }

    /// The instruction with a route more. The output, by its end index, has none yet; the source is an
    /// input of its network, or a register where no other route sends another register.
    pub fn with_route(self, output: usize, source: SwitchSource) -> SwitchIns
        requires { IsNewRoute self output source }
        ensures value { result ≡ with_route self output source }
        ensures routed { route_source result output ≡ Some source }
        ensures others { (end : ℕ) → end ≢ output → route_source result end ≡ route_source self end }
    {
        let mut routes = self.routes;
        match source {
            SwitchSource::Register(rsel) => {
                routes[output] = 6;
                SwitchIns {
                    rsel,
                    routes,
                    ..self
                }
            }
            SwitchSource::Input(input) => {
                routes[output] = input % 5 + 1;
                SwitchIns { routes, ..self }
            }
        }
    }
}
