ghost use Rattle.std.specs.Prelude.{◌≡◌, ◌≤◌, ◌^◌, ◌++◌, IfOk, OnOk};
ghost use Rattle.std.specs.List.{flat_map, range_with_len};
ghost use Rattle.boss_load.specs.Day.{attach_text, attaches_text, heading, load_script, renew_text, submit_text, target_text, transaction_text, value_of, write_text};

use crate::text::{put, put_number};
use boss_model::{Items, NoMemory};
use std::alloc::Global;

/// How many processes attach.
const PROCESSES: u64 = 6;

/// How many points the plant has.
const POINTS: u64 = 40;

/// How many lines a transaction has: its submit, and its renewals.
const LINES: u64 = 7;

/// How many of these are renewals.
const RENEWALS: u64 = 6;

/// Milliseconds from line to line.
const PAUSE: u64 = 24_000;

/// The script of so many transactions, as lines of requests: six processes attach, and then each transaction is submitted and
/// renewed six times, with 24 seconds from line to line. The values differ from seed to seed. `NoMemory` comes only where no
/// memory is to be had.
#[tactic(auto, using(crate::proofs::Ranges::flat_map_next), unfolding(crate::specs::Day::load_script))]
pub fn load_script(alloc: Global, count: u32, seed: u32) -> Result<Items<u8>, NoMemory>
    ensures { IfOk result (λ script. script ≡ load_script count seed) }
{
    let mut script = Vec::new(alloc);
    put_attaches(&mut script)?;
    for number in 0..count {
        put_transaction(&mut script, seed, u64::from(number))?;
    }
    Ok(Items::from_vec(script))
}

/// What a transaction writes, in thousandths; the first has the number 0.
pub fn value_of(seed: u32, number: u32) -> u64
    ensures { result ≡ value_of seed number }
{
    value(seed, u64::from(number))
}

fn value(seed: u32, number: u64) -> u64
    requires { number ≤ 2 ^ 32 }
    ensures { result ≡ value_of seed number }
{
    30_000 + (31 * u64::from(seed) + 7_919 * number) % 60_001
}

/// Puts the attaches of all processes behind the script.
#[tactic(auto, using(crate::proofs::Ranges::flat_map_next), unfolding(crate::specs::Day::attaches_text))]
fn put_attaches(script: &mut Vec<u8>) -> Result<(), NoMemory>
    ensures { OnOk result (script.new.items ≡ script.old.items ++ attaches_text) }
{
    for place in 0..PROCESSES {
        put_attach(script, place + 1)?;
    }
    Ok(())
}

#[tactic(auto, unfolding(crate::specs::Day::attach_text))]
fn put_attach(script: &mut Vec<u8>, session: u64) -> Result<(), NoMemory>
    ensures { OnOk result (script.new.items ≡ script.old.items ++ attach_text session) }
{
    put(script, b"{\"on\":")?;
    put_number(script, session)?;
    put(script, b",\"op\":\"attach\",\"process\":\"q")?;
    put_number(script, session)?;
    put(script, b"\"}\n")
}

/// Puts a transaction behind the script.
#[tactic(auto, using(crate::proofs::Ranges::flat_map_next), unfolding(crate::specs::Day::transaction_text))]
fn put_transaction(script: &mut Vec<u8>, seed: u32, number: u64) -> Result<(), NoMemory>
    requires { number ≤ 2 ^ 32 }
    ensures { OnOk result (script.new.items ≡ script.old.items ++ transaction_text seed number) }
{
    put_submit(script, seed, number)?;
    for place in 0..RENEWALS {
        put_renewal(script, number, place + 2)?;
    }
    Ok(())
}

/// Puts the session and the moment of a line of a transaction, with which it begins.
#[tactic(auto, unfolding(crate::specs::Day::heading))]
fn put_heading(script: &mut Vec<u8>, number: u64, line: u64) -> Result<(), NoMemory>
    requires small { number ≤ 2 ^ 32 }
    requires few { line ≤ 7 }
    ensures { OnOk result (script.new.items ≡ script.old.items ++ heading number line) }
{
    put(script, b"{\"on\":")?;
    put_number(script, 1 + number % PROCESSES)?;
    put(script, b",\"at\":")?;
    put_number(script, PAUSE * (LINES * number + line))
}

#[tactic(auto, unfolding(crate::specs::Day::submit_text))]
fn put_submit(script: &mut Vec<u8>, seed: u32, number: u64) -> Result<(), NoMemory>
    requires { number ≤ 2 ^ 32 }
    ensures { OnOk result (script.new.items ≡ script.old.items ++ submit_text seed number) }
{
    put_heading(script, number, 1)?;
    put(script, b",\"op\":\"submit\",\"writes\":[")?;
    put_write(script, seed, number)?;
    put(script, b"]}\n")?;
    Ok(())
}

/// Puts the write of a transaction behind the script.
#[tactic(auto, unfolding(crate::specs::Day::write_text))]
fn put_write(script: &mut Vec<u8>, seed: u32, number: u64) -> Result<(), NoMemory>
    requires { number ≤ 2 ^ 32 }
    ensures { OnOk result (script.new.items ≡ script.old.items ++ write_text seed number) }
{
    put_target(script, seed, number)?;
    put(script, b",\"priority\":")?;
    put_number(script, 8 + number % PROCESSES)?;
    put(script, b",\"lease\":60000,\"revert\":[[25000,30000]]}")
}

#[tactic(auto, unfolding(crate::specs::Day::target_text))]
fn put_target(script: &mut Vec<u8>, seed: u32, number: u64) -> Result<(), NoMemory>
    requires { number ≤ 2 ^ 32 }
    ensures { OnOk result (script.new.items ≡ script.old.items ++ target_text seed number) }
{
    put(script, b"{\"point\":\"p")?;
    put_number(script, number % POINTS)?;
    put(script, b"\",\"value\":")?;
    put_number(script, value(seed, number))
}

#[tactic(auto, unfolding(crate::specs::Day::renew_text))]
fn put_renewal(script: &mut Vec<u8>, number: u64, line: u64) -> Result<(), NoMemory>
    requires small { number ≤ 2 ^ 32 }
    requires few { line ≤ 7 }
    ensures { OnOk result (script.new.items ≡ script.old.items ++ renew_text number line) }
{
    put_heading(script, number, line)?;
    put(script, b",\"op\":\"renew\",\"txn\":")?;
    put_number(script, number + 1)?;
    put(script, b",\"length\":60000}\n")
}
