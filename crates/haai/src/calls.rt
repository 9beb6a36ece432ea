// 8.12 The call.
ghost use Rattle.std.specs.Prelude.{◌≤◌, ◌≡◌, true, length};
ghost use Rattle.image.specs.Memory.{patch};
ghost use Rattle.haai.specs.Grammar.{form_of};
ghost use Rattle.haai.specs.Names.{text_of};
ghost use Rattle.haai.specs.Emit.{program_of, within_limits};
ghost use Rattle.haai.specs.Compile.{written, by_names, compile_of};
ghost use Rattle.haai.specs.Clauses.{check_of, right, compiled};
ghost use Rattle.haai.specs.Tables.{known_by};
ghost use Rattle.haai.specs.Writing as Q;

use crate::grammar::form;
use crate::learn::names;
use crate::measure::{code_length, fits};
use crate::pass::write;
use crate::tables::write_tables;
use crate::{Found, Size};
use answer::{Answer, Refusal};

// The program of a text without fault, where there is room for it.
fn put_program(text: &[u8], table: &[Size; 32], f: Found, output: &mut [u8])
    requires clean { Q.Clean text.now f table.now }
    requires limits { let t = text.now in
        within_limits (known_by (length t) (form_of t)).definitions ≡ true }
    requires room { let t = text.now in
        length (program_of (text_of (known_by (length t) (form_of t)))) ≤ length output.old }
    ensures { let t = text.now in
        output.new ≡ patch output.old 0 (program_of (text_of (known_by (length t) (form_of t)))) }
{
    let n = f.definitions;
    let g = f.sources;
    write_tables(output, &table[..n], g);
    write(text, table, 8 + g + 20 * n, output);
}

// 18, or the program: of a text without fault.
fn compile_clean(text: &[u8], table: &[Size; 32], f: Found, output: &mut [u8]) -> Answer
    requires { Q.Clean text.now f table.now }
    ensures { let t = text.now in
        let x = text_of (known_by (length t) (form_of t)) in
        compiled result output.new ≡ written output.old x }
{
    let n = f.definitions;
    if !fits(&table[..n]) {
        return Err(Refusal::OutputSpace(0));
    }
    let whole = 8 + f.sources + 20 * n + code_length(&table[..n]);
    if output.len() < whole {
        return Err(Refusal::OutputSpace(whole));
    }
    put_program(text, table, f, output);
    Ok(whole)
}

// 17, 18, or the program: of a text whose form is right.
fn compile_formed(text: &[u8], output: &mut [u8]) -> Answer
    requires { check_of (form_of text.now) ≡ right }
    ensures { let t = text.now in
        let k = known_by (length t) (form_of t) in
        compiled result output.new ≡ by_names (length t) output.old k }
{
    let mut table = [Size::NONE; 32];
    let f = names(text, &mut table);
    if f.fault != text.len() {
        return Err(Refusal::TextName(f.fault));
    }
    compile_clean(text, &table, f, output)
}

// The program of a text, in the output space from its first byte on, and how many bytes it has; or why there is none.
pub fn compile(text: &[u8], output: &mut [u8]) -> Answer
    ensures answer { result ≡ (compile_of text.now output.old).answer }
    ensures output { output.new ≡ (compile_of text.now output.old).output }
{
    match form(text) {
        Ok(()) => compile_formed(text, output),
        Err(q) => Err(Refusal::TextForm(q)),
    }
}
