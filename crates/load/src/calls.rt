// 5.3 The whole check.
ghost use Rattle.std.specs.Prelude.{◌≤◌, ◌<◌, ◌≡◌, length, replicate, Ok};
ghost use Rattle.value.specs.Test.{◌and◌, ◌≤?◌};
ghost use Rattle.program.specs.Bytes as B;
ghost use Rattle.program.specs.Clauses.{Facts};
ghost use Rattle.load.specs.Check.{accepted, check_of, checked, reactors_of};
ghost use Rattle.load.specs.Clauses.{LegalTables};

use crate::Locations;
use crate::known::Known;
use crate::tables::{header_fault, header_passes, table_fault, tables_pass};
use answer::{Answer, Refusal};
use program::{Counts, Header, entry_at, fact, main_of, reactors, tables_end, whole_length};

// The reactors, one after the other.
fn judge_reactors(program: &[u8], facts: &mut [u64; 64]) -> Result<(), Refusal>
    requires tables { LegalTables program.now }
    requires few { (0 < B.reactors program.now) × (B.reactors program.now ≤ B.most_reactors) }
    requires zeros { facts.old ≡ replicate 64 0 }
    requires whole { (length program.now ≡ B.whole_length program.now) × (length program.now ≤ B.most_bytes) }
    ensures ruling { let p = program.now in
        checked p result ≡ reactors_of (accepted p) (B.reactors p) p 0 }
    ensures facts { result ≡ Ok tt → Facts program.now facts.new }
{
    let count = reactors(program);
    let mut first = tables_end(program) as u32;
    for r in 0..count {
        let known = Known::of(program, r, first);
        let mut locations = Locations::blank();
        let results = known.scan(&mut locations)?;
        if !locations.complete(known.first_sink() + known.sinks as usize) {
            return Err(Refusal::Missing(entry_at(program, r as u32)));
        }
        let k = Counts::new(
            first,
            known.sources,
            known.declared,
            known.running,
            results,
            known.sinks,
        );
        facts[r as usize] = k.word;
        first += 8 * (known.declared as u32 + known.running as u32);
    }
    Ok(())
}

// 7.1 Whether a program may have n bytes: the header's at least, and 65,535 at most.
fn length_legal(n: usize) -> bool
    ensures { result ≡ ((B.header_end ≤? n) and (n ≤? B.most_bytes)) }
{
    (Header::BYTES as usize <= n) & (n <= Header::MOST_BYTES)
}

// Whether a program is accepted, or why not. Of an accepted one the facts are noted in a table of zeros.
pub fn judge(program: &[u8], facts: &mut [u64; 64]) -> Result<(), Refusal>
    requires { facts.old ≡ replicate 64 0 }
    ensures ruling { let p = program.now in
        checked p result ≡ check_of p }
    ensures facts { result ≡ Ok tt → Facts program.now facts.new }
{
    let n = program.len();
    if !length_legal(n) {
        return Err(Refusal::ProgramLength(n));
    }
    if !header_passes(program) {
        return Err(Refusal::TableByte(header_fault(program) as usize));
    }
    let end = tables_end(program);
    if n < end as usize {
        return Err(Refusal::ProgramLength(n));
    }
    if !tables_pass(program) {
        return Err(Refusal::TableByte(table_fault(program) as usize));
    }
    if n != whole_length(program) as usize {
        return Err(Refusal::ProgramLength(n));
    }
    judge_reactors(program, facts)
}

// 4.4 The check: done, with the size of main, or refused.
pub fn check(program: &[u8]) -> Answer
    ensures { result ≡ check_of program.now }
{
    let mut facts = [0u64; 64];
    judge(program, &mut facts)?;
    Ok(fact(&facts, main_of(program) as u32).size() as usize)
}
