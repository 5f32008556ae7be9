//! The value of a worked flow.
use raw_flow::{Flow, FlowOp, Node, direct};
use std::test::Fail;

/// The sum of two inputs, and its square.
static SUM_AND_SQUARE: [Node; 4] = [
    Node::Input,
    Node::Input,
    Node::Apply {
        op: FlowOp::Add,
        a: 0,
        b: 1,
    },
    Node::Apply {
        op: FlowOp::Mul,
        a: 2,
        b: 2,
    },
];

#[test]
fn a_sum_and_a_square(rt: HostRuntime) -> Result<(), Fail> {
    let alloc = rt.alloc();
    let nodes = SUM_AND_SQUARE.to_vec(alloc)?;
    let flow = Flow::new(2, 1, nodes, [3].to_vec(alloc)?).ok_or("no flow")?;
    assert!(rt; flow.input_count() == 2);
    assert!(rt; direct(alloc, &flow, &[3, 4])?.as_slice() == [49].as_slice());
    Ok(())
}
