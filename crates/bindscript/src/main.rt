// Follows a script of calls on a binder, a command a line, and prints a line for each answer. docs/PROGRAMS.md says how a script is written.
#![tactic(auto)]

mod answers;
mod commands;
mod driver;
mod lists;
mod script;
mod texts;

use crate::answers::Answer;
use crate::commands::{BankName, Command, Setting, SourceName};
use crate::driver::Driver;
use crate::script::{Line, Script};
use crate::texts::{opened_text, refused_text};
use bank::Bank;
use banks::{House, house, trial};
use sample::draws::{Centre, Draws, Mill};

// Answers commands until one opens a binder; that one, or none at the end of the script.
fn follow<B: Bank, D: Draws + Drop>(
    rt: &HostRuntime,
    script: &mut Script,
    driver: Option<Driver<'_, B, D>>,
) -> anyhow::Result<Option<Setting>> {
    let mut driver = driver;
    // No script has more lines.
    for _ in 0..u64::MAX {
        let Some(Line { number, command }) = script.next_line(rt.alloc())? else {
            return Ok(None);
        };
        match (command, &mut driver) {
            (Some(Command::Nothing), _) => (),
            (Some(Command::Open(setting)), _) => return Ok(Some(setting)),
            (Some(Command::Call(call)), Some(driver)) => {
                print_answer(rt, number, &driver.answer(rt.alloc(), &call)?)?
            }
            _ => println!(rt; "bad,{number}")?,
        }
    }
    Ok(None)
}

// The answer to line `number`, and what went wrong beside it.
fn print_answer(rt: &HostRuntime, number: u64, answer: &Answer) -> anyhow::Result<()> {
    let text = answer.text.as_str();
    print!(rt; "{text}")?;
    if !answer.memory_zero {
        println!(rt; "memory,{number}")?;
    }
    if !answer.others_kept {
        println!(rt; "changed,{number}")?;
    }
    Ok(())
}

// Opens a binder, and answers commands until the next one is opened.
fn begin<B: Bank, D: Draws + Drop>(
    rt: &HostRuntime,
    script: &mut Script,
    bank: &B,
    setting: Setting,
) -> anyhow::Result<Option<Setting>> {
    let heap = rt.alloc();
    let (text, driver) = match Driver::<B, D>::open(heap, bank, setting.levels, setting.bytes)? {
        Ok(driver) => (opened_text(heap)?, Some(driver)),
        Err(refusal) => (refused_text(heap, refusal)?, None),
    };
    print!(rt; "{text}")?;
    follow(rt, script, driver)
}

// The same with the bank and the source named.
fn serve(
    rt: &HostRuntime,
    script: &mut Script,
    setting: Setting,
) -> anyhow::Result<Option<Setting>> {
    match (setting.bank, setting.source) {
        (BankName::House, SourceName::Mill) => begin::<_, Mill>(rt, script, &house(), setting),
        (BankName::House, SourceName::Centre) => begin::<_, Centre>(rt, script, &house(), setting),
        (BankName::Trial, SourceName::Mill) => begin::<_, Mill>(rt, script, &trial(), setting),
        (BankName::Trial, SourceName::Centre) => begin::<_, Centre>(rt, script, &trial(), setting),
    }
}

fn run(rt: &HostRuntime) -> anyhow::Result<()> {
    let mut script = Script::new(rt)?;
    let mut next = follow::<House, Mill>(rt, &mut script, None)?;
    for _ in 0..u64::MAX {
        let Some(setting) = next else {
            break;
        };
        next = serve(rt, &mut script, setting)?;
    }
    Ok(())
}

fn main(rt: HostRuntime) -> anyhow::Result<()> {
    run(&rt)
}
