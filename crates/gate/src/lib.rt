// Refusals 1 to 4, "in this order; the first that applies is given".
#![tactic(auto)]

ghost use Rattle.std.specs.Prelude.{◌≡◌, length};
ghost use Rattle.kinds.specs.Number.{number_in};
ghost use Rattle.table.specs.Layout.{table_size};
ghost use Rattle.lent.specs.Gate.{start_number, gate_number};

use kinds::Refusal;

// "Output buffer: at least 4,096 bytes. Assembling buffer: exactly 32,768"
const LEAST_OUTPUT: usize = 4096;

const ASSEMBLING: usize = 32768;

// The refusals of a start: "1 to 4 hold for every call, but start skips 4."
pub fn start_refusal(s: &[u8], out: &[u8], m: &[u8]) -> Result<(), Refusal>
    ensures { number_in result ≡ start_number s.now out.now m.now }
{
    if !sheet_rules::sheet_ok(s) {
        return Err(Refusal::SheetBroken);
    }
    if out.len() < LEAST_OUTPUT {
        return Err(Refusal::OutputShort);
    }
    if m.len() != ASSEMBLING {
        return Err(Refusal::AssemblingWrong);
    }
    Ok(())
}

// The refusals of every other call.
pub fn refusal(s: &[u8], t: &[u8], out: &[u8], m: &[u8]) -> Result<(), Refusal>
    requires { length t.now ≡ table_size }
    ensures { number_in result ≡ gate_number s.now t.now out.now m.now }
{
    start_refusal(s, out, m)?;
    if !rules::whole_table::table_keeps(t, s) {
        return Err(Refusal::TableBroken);
    }
    Ok(())
}
