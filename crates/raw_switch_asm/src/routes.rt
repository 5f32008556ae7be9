//! The routes of a statement.
ghost use Rattle.std.specs.Prelude.{◌≡◌, ℕ, ◌<◌, ◌==◌, length, map, All, Some, IfSome, IfOk};
ghost use Rattle.std.specs.Option.{option_map};
ghost use Rattle.std.specs.List.{position, list_all, find};
ghost use Rattle.raw_asm.specs.Tokens.{tokens_of};
ghost use Rattle.raw_switch_isa.specs.Ends.{IsSource};
ghost use Rattle.raw_switch_asm.specs.Route.{is_arrow, is_route, arrow_parts, source_on, route_on, route_of, IsRoute, placed, sources_of, route_code, sends, sends_only, sent_register, register_number, are_one};

use crate::letters::{on_network, register, side};
use raw_asm::{AsmKind, Tokens};
use raw_switch_isa::SwitchSource;

/// A route: an output by its end index, and where its value comes from.
#[derive(Clone, Copy, PartialEq, Eq)]
pub(crate) struct Route {
    pub(crate) output: u8,
    pub(crate) source: SwitchSource,
}

// Whether a token is read as a route.
pub(crate) fn is_route(token: &[u8]) -> bool
    ensures { result ≡ is_route token.now }
{
    token.iter().any(|b| *b == b'>')
}

// Where the first `>` stands.
fn first_arrow(token: &[u8]) -> Option<usize>
    ensures { result ≡ position is_arrow token.now }
{
    token.iter().position(|b| *b == b'>')
}

// What stands before and behind the first `>`.
fn arrow_parts(token: &[u8]) -> Option<(&[u8], &[u8])>
    ensures { option_map (λ parts. (parts.0.now, parts.1.now)) result ≡ arrow_parts token.now }
{
    let arrow = first_arrow(token)?;
    Some((&token[..arrow], &token[arrow + 1..]))
}

// What a route on a network takes its value from.
#[tactic(auto, unfolding(crate::specs::Route::source_on))]
fn source_on(network: u8, token: &[u8]) -> Option<SwitchSource>
    requires { network < 2 }
    ensures source { result ≡ source_on network token.now }
    ensures within { IfSome result IsSource }
{
    match side(token) {
        Some(side) => Some(SwitchSource::Input(5 * network + side)),
        None => Some(SwitchSource::Register(register(token)?)),
    }
}

// The route on a network with these texts of its source and its output.
#[tactic(auto, unfolding(crate::specs::Route::route_on))]
fn route_on(network: u8, source: &[u8], output: &[u8]) -> Option<Route>
    requires { network < 2 }
    ensures route { result ≡ route_on network source.now output.now }
    ensures within { IfSome result IsRoute }
{
    let side = side(output)?;
    let source = source_on(network, source)?;
    Some(Route {
        output: 5 * network + side,
        source,
    })
}

// The route of a token.
#[tactic(auto, unfolding(crate::specs::Route::route_of))]
fn read_route(token: &[u8]) -> Option<Route>
    ensures route { result ≡ route_of token.now }
    ensures within { IfSome result IsRoute }
{
    let (network, rest) = on_network(token)?;
    let (source, output) = arrow_parts(rest)?;
    route_on(network, source, output)
}

// One route more in a table of what each output sends.
#[tactic(auto, unfolding(crate::specs::Route::placed))]
fn placed(
    route: Option<Route>,
    sources: [Option<SwitchSource>; 10],
) -> Result<[Option<SwitchSource>; 10], AsmKind>
    requires route { IfSome route IsRoute }
    requires sound { All (λ source. IfSome source IsSource) sources }
    ensures table { result ≡ placed route sources }
    ensures sound { IfOk result (All (λ source. IfSome source IsSource)) }
{
    let Some(route) = route else {
        return Err(AsmKind::BadRoute);
    };
    let output = route.output as usize;
    if sources[output].is_some() {
        return Err(AsmKind::TwoSources);
    }
    let mut more = sources;
    more[output] = Some(route.source);
    Ok(more)
}

// What each output sends by the routes.
pub(crate) fn sources(tokens: &Tokens<'_>) -> Result<[Option<SwitchSource>; 10], AsmKind>
    ensures table { result ≡ sources_of (tokens_of tokens.now) }
    ensures sound { IfOk result (All (λ source. IfSome source IsSource)) }
{
    let mut sources = [None; 10];
    for place in 0..tokens.len() {
        sources = placed(read_route(tokens.at(place)), sources)?;
    }
    Ok(sources)
}

// The code of a route.
fn route_code(source: Option<SwitchSource>) -> u8
    ensures code { result ≡ route_code source }
    ensures small { result < 7 }
{
    match source {
        None => 0,
        Some(SwitchSource::Register(_)) => 6,
        Some(SwitchSource::Input(input)) => input % 5 + 1,
    }
}

fn sends(source: Option<SwitchSource>) -> bool
    ensures { result ≡ sends source }
{
    matches!(source, Some(SwitchSource::Register(_)))
}

fn sends_only(register: u8, source: Option<SwitchSource>) -> bool
    ensures { result ≡ sends_only register source }
{
    match source {
        Some(SwitchSource::Register(sent)) => sent == register,
        Some(SwitchSource::Input(_)) | None => true,
    }
}

// The first output that sends a register, by what it sends.
fn first_sent(sources: &[Option<SwitchSource>; 10]) -> Option<Option<SwitchSource>>
    ensures { result ≡ find sends sources.now }
{
    sources.iter().copied().find(|source| sends(*source))
}

// The register that the outputs send, and 0 where none does.
pub(crate) fn sent_register(sources: &[Option<SwitchSource>; 10]) -> u8
    ensures { result ≡ sent_register sources.now }
{
    match first_sent(sources) {
        Some(Some(SwitchSource::Register(register))) => register,
        _ => 0,
    }
}

// Whether the outputs send no other register than this one.
pub(crate) fn send_only(register: u8, sources: &[Option<SwitchSource>; 10]) -> bool
    ensures { result ≡ list_all (sends_only register) sources.now }
{
    sources.iter().all(|source| sends_only(register, *source))
}

// The code of each output.
pub(crate) fn route_codes(sources: &[Option<SwitchSource>; 10]) -> [u8; 10]
    ensures codes { result ≡ map route_code sources.now }
    ensures ten { length result ≡ 10 }
{
    let mut codes = [0; 10];
    for output in 0..10 {
        codes[output] = route_code(sources[output]);
    }
    codes
}
