// Nodes, by the forms that the plan names.
ghost use Rattle.std.specs.Prelude.{◌≡◌, ◌+◌, ◌^◌, ◌<◌, ◌≤◌, List, length};
ghost use Rattle.children.specs.Apart.{children_seen};
ghost use Rattle.column.specs.Columns.{seen};
ghost use Rattle.column.specs.Kinds.{number_of};
ghost use Rattle.emit.specs.Emitted.{Planned, PlannedBy, AllPlanned, Emitted, AllEmitted};
ghost use Rattle.levels.specs.NodesOf.{Able};
ghost use Rattle.levels.specs.Openings.{Opened};
ghost use Rattle.node.specs.Nodes.{Node, head_size, head_bytes};
ghost use Rattle.packing.specs.Packing.{written};

use crate::leaves::{BLANK, CONSTANT, PLAIN, emit_blank, emit_constant, emit_plain};
use bank::Bank;
use bank::small::SmallBank;
use children::{Children, places_for, take_apart};
use column::cleaned::Cleaned;
use node::heads::{HEAD_SIZE, Head};

// How many bytes were written, and of how many nodes.
#[derive(Clone, Copy)]
pub struct Written {
    pub whole: usize,
    pub nodes: usize,
}

// Writes the head of a node whose payload and children stand behind it already.
pub(crate) fn write_head(head: Head, payload: usize, below: Written, out: &mut [u8]) -> Written
    requires room { head_size + payload + below.whole ≤ length out.old }
    requires whole { head_size + payload + below.whole < 2 ^ 32 }
    requires nodes { below.nodes < 2 ^ 32 }
    ensures whole { result.whole ≡ head_size + payload + below.whole }
    ensures nodes { result.nodes ≡ 1 + below.nodes }
    ensures bytes { out.new ≡ written (head_bytes head payload (head_size + payload + below.whole)) out.old }
{
    let whole = HEAD_SIZE + payload + below.whole;
    head.write(payload as u32, whole as u32, out);
    Written {
        whole,
        nodes: 1 + below.nodes,
    }
}

// Writes the column's node that the plan begins with to the front of `out`.
#[cycle(emit)]
pub fn emit<B: Bank>(
    bank: &SmallBank<'_, B>,
    array: Cleaned<'_>,
    plan: &[u64],
    mem: &mut [u64],
    out: &mut [u8],
) -> Written
    requires opened { Opened (B.Bank.meanings bank.now.schemes.now) }
    requires planned { (n : Node) × Planned (B.Bank.meanings bank.now.schemes.now) (seen array.view) plan.now (length mem.old) (length out.old) n }
    ensures { (n : Node) → Planned (B.Bank.meanings bank.now.schemes.now) (seen array.entry.view) plan.now (length mem.old) (length out.old) n → Emitted n result out.old out.new }
{
    let form = plan[0] as u8;
    if form == PLAIN {
        return emit_plain(array, out);
    }
    if form == CONSTANT {
        return emit_constant(array, out);
    }
    if form == BLANK {
        return emit_blank(array.view, out);
    }
    let Some(number) = bank.find(form) else {
        unreachable!()
    };
    emit_scheme(bank, number, array, plan, mem, out)
}

// The node of the scheme of this number.
#[cycle(emit)]
fn emit_scheme<B: Bank>(
    bank: &SmallBank<'_, B>,
    number: usize,
    array: Cleaned<'_>,
    plan: &[u64],
    mem: &mut [u64],
    out: &mut [u8],
) -> Written
    requires opened { Opened (B.Bank.meanings bank.now.schemes.now) }
    requires able { Able (B.Bank.meanings bank.now.schemes.now) (number_of array.view.kind) number }
    requires planned { (n : Node) × PlannedBy (B.Bank.meanings bank.now.schemes.now) number (seen array.view) plan.now (length mem.old) (length out.old) n }
    ensures { (n : Node) → PlannedBy (B.Bank.meanings bank.now.schemes.now) number (seen array.entry.view) plan.now (length mem.old) (length out.old) n → Emitted n result out.old out.new }
{
    let schemes = bank.schemes;
    let rows = array.view.rows();
    let (places, rest) = mem.split_at_mut(places_for(rows));
    let Ok(apart) = take_apart(schemes, number, array, places, rest) else {
        unreachable!()
    };
    schemes.payload_at(number, array.view, rest, &mut out[HEAD_SIZE..]);
    let start = HEAD_SIZE + apart.payload;
    let below = emit_children(bank, apart.children, &plan[1..], rest, &mut out[start..]);
    let head = Head {
        form: schemes.id_at(number),
        kind: u8::from(array.view.kind),
        cell_bits: apart.cell_bits,
        flag: apart.flag,
        rows: rows as u32,
    };
    write_head(head, apart.payload, below, out)
}

// The nodes of the children; child 1 begins where child 0 ends.
#[cycle(emit)]
fn emit_children<B: Bank>(
    bank: &SmallBank<'_, B>,
    children: Children<'_>,
    plan: &[u64],
    mem: &mut [u64],
    out: &mut [u8],
) -> Written
    requires opened { Opened (B.Bank.meanings bank.now.schemes.now) }
    requires planned { (ns : List Node) × AllPlanned (B.Bank.meanings bank.now.schemes.now) (children_seen children) plan.now (length mem.old) (length out.old) ns }
    ensures { (ns : List Node) → AllPlanned (B.Bank.meanings bank.now.schemes.now) (children_seen children.entry) plan.now (length mem.old) (length out.old) ns → AllEmitted ns result out.old out.new }
{
    match children {
        Children::None => Written { whole: 0, nodes: 0 },
        Children::One(child) => emit(bank, child, plan, mem, out),
        Children::Two(child0, child1) => {
            let first = emit(bank, child0, plan, mem, out);
            let second = emit(
                bank,
                child1,
                &plan[first.nodes..],
                mem,
                &mut out[first.whole..],
            );
            Written {
                whole: first.whole + second.whole,
                nodes: first.nodes + second.nodes,
            }
        }
    }
}
