// Replays what the Rust answers for TREE. `stdin` has the bodies, each behind its length in two bytes, and `stdout` a line for each: `none`, `9`, `10`, or the nodes, each
// as parent, name, count, subtree count and id. tests/make/tree_replay made both files with the oracle; it names the two differences: 9 past depth 512 (D8), and children in
// file order (D9).

#![tactic(auto)]

use replay::Cases;
use std::io::Result;

// The most that is read of the list of bodies.
const LIST_ROOM: usize = 131072;

// Room for 520 nodes, more than a tree may be deep, and seven bytes over.
const NODE_ROOM: usize = 37447;

// A number, -1 in its own spelling.
fn show_number(rt: &impl Print, x: u64) -> Result<()> {
    match x {
        node::MINUS_ONE => print!(rt; "-1 "),
        _ => print!(rt; "{x} "),
    }
}

fn show_node(rt: &impl Print, body: &[u8], nodes: &[u8], i: usize) -> Result<()> {
    print!(rt; "|")?;
    show_number(rt, node::parent(nodes, i))?;
    replay::print_hex(rt, node::name(body, nodes, i))?;
    print!(rt; " ")?;
    show_number(rt, node::count(nodes, i))?;
    show_number(rt, node::subtrees(nodes, i))?;
    replay::print_hex(rt, node::id(nodes, i))
}

fn show_nodes(rt: &impl Print, body: &[u8], nodes: &[u8], used: usize) -> Result<()> {
    for i in 0..used {
        show_node(rt, body, nodes, i)?;
    }
    println!(rt)
}

// The answer to one body.
fn show_answer(rt: &impl Print, body: &[u8], nodes: &mut [u8]) -> Result<()> {
    let answer = tree::read_tree(body, 0, body.len(), nodes);
    match answer {
        Ok(Some(used)) => show_nodes(rt, body, nodes, used),
        Ok(None) => println!(rt; "none"),
        Err(_) => {
            let number = tree::number(answer);
            println!(rt; "{number}")
        }
    }
}

fn main(rt: HostRuntime) -> Result<()> {
    // arrays, since a vector could lack memory, and no answer is to depend on that
    let mut room = [0u8; LIST_ROOM];
    let mut nodes = [0u8; NODE_ROOM];
    let n = replay::fill(rt.stdin(), &mut room);
    for body in Cases::of(&room[..n]) {
        // what cannot be printed is left out
        let _ = show_answer(&rt, body, &mut nodes);
    }
    Ok(())
}
