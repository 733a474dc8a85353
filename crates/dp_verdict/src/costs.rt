//! `dpv check --cost`: how many instructions the programs of a pipeline can take, and the turn of a record with them.

ghost use Rattle.std.specs.Prelude.{◌≡◌};

use dp_check::Checked;
use dp_console::{Document, Item, Reply};
use dp_cost::{Cost, cost_of, turn_cost};
use dp_load::{NodeName, Pipeline};
use dp_model::Instr;
use std::alloc::Global;

/// Writes what a program can cost, and the rings into which it puts packets.
fn write_node(node: &Checked, cost: Cost, to: &mut Document) {
    let back = cost
        .back
        .map_or(Item::Null, |label| Item::Number(u64::from(label)));
    to.begin_object("");
    to.items(&[
        ("back", back),
        ("cost", Item::Number(u64::from(cost.steps))),
    ]);
    to.shown("node", NodeName(node.entry()));
    to.begin_list("rings");
    for instr in node.program().instrs() {
        if let Instr::Enq { ring, .. } = *instr {
            to.item("", Item::Number(u64::from(ring)));
        }
    }
    to.end_list();
    to.end_object();
}

/// Adds the document of what the programs of an accepted pipeline can cost. It stands in place of one that is there.
pub fn say_costs(alloc: Global, pipeline: &Pipeline, reply: &mut Reply)
    ensures { reply.new.status ≡ reply.old.status }
{
    let (ports, mut port, mut to) = (pipeline.ports(), 0, Document::new(alloc));
    let (steps, back) = (0, None);
    let mut of_port = Cost { steps, back };
    let mut of_ring = of_port;
    to.begin_object("");
    to.items(&[
        ("view", Item::Text("costs")),
        ("json", Item::Bool(reply.is_json)),
    ]);
    to.begin_list("nodes");
    for k in 0..pipeline.nodes() {
        let node = pipeline.node(k);
        let cost = cost_of(node.program());
        write_node(node, cost, &mut to);
        if k < ports && cost.steps > of_port.steps {
            (port, of_port) = (k, cost);
        } else if k >= ports && cost.steps > of_ring.steps {
            of_ring = cost;
        }
    }
    to.end_list();
    to.item("port", Item::Number(port as u64));
    to.item("steps", Item::Number(u64::from(of_port.steps)));
    to.item("turn", Item::Number(turn_cost(of_port, &[of_ring])));
    to.end_object();
    if reply.is_json {
        reply.out.bytes.clear();
    }
    to.say_to(&mut reply.out);
}
