// Binds a column for each line of standard input, and prints the nodes that each was bound to once a fetch has given it back.
#![tactic(auto)]

mod binding;
mod fetching;
mod outcomes;
mod shelf;

ghost use Rattle.std.specs.Prelude.{◌≡◌};
ghost use Rattle.banks.specs.Banks.{house};

use crate::outcomes::Outcome;
use crate::shelf::Shelf;
use bank::Bank;
use banks::{House, house};
use std::io::{BufRead, BufReader};

// What each line came to, in their order.
fn bind_lines(rt: &HostRuntime, shelf: &mut Shelf<'_>) -> anyhow::Result<Vec<Outcome>> {
    let heap = rt.alloc();
    let mut outcomes = Vec::new(heap);
    for (i, line) in BufReader::new(heap, rt.stdin())?.lines(heap).enumerate() {
        let text = line?;
        outcomes.push(shelf.bind_line(heap, i as u64 + 1, text.as_bytes())?)?;
    }
    Ok(outcomes)
}

// Prints what line `n` came to, unless a fetch gives another column than was bound.
fn print_line(
    rt: &HostRuntime,
    n: u64,
    shelf: &mut Shelf<'_>,
    outcome: &Outcome,
) -> anyhow::Result<()> {
    if let Some(bound) = &outcome.bound
        && !shelf.gives_back(rt.alloc(), bound)?
    {
        println!(rt; "differs,{n}")?;
        return Ok(());
    }
    let text = outcome.text.as_str();
    print!(rt; "{text}")?;
    Ok(())
}

fn run(rt: &HostRuntime, bank: &House) -> anyhow::Result<()>
    requires { ⟦<House as Bank>⟧.meanings bank.now ≡ house }
{
    let mut shelf = Shelf::open(rt.alloc(), bank)?;
    let outcomes = bind_lines(rt, &mut shelf)?;
    println!(rt; "column,level,form,kind,rows,payload,whole")?;
    for (i, outcome) in outcomes.iter().enumerate() {
        print_line(rt, i as u64 + 1, &mut shelf, outcome)?;
    }
    Ok(())
}

fn main(rt: HostRuntime) -> anyhow::Result<()> {
    run(&rt, &house())
}
