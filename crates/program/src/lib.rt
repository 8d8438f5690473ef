// What the plan program does with its input, on lent bytes: it reads the design, plans it, and puts the text.
#![tactic(auto)]

ghost use Rattle.std.specs.Prelude.{◌*◌, ◌≤◌, length};
ghost use Rattle.rules.specs.Design.{most_modules};
ghost use Rattle.rules.specs.Program.{program_input};
ghost use Rattle.lending.specs.Lent.{given, lent};
ghost use Rattle.printing.specs.Text.{text_size};
ghost use Rattle.program.specs.Run.{Answers, Runs, PlansInput};

use cellweaver::{plan, read};
use printing::{TEXT_SIZE, plan_text};
use rules::{Handed, MOST_MODULES, Refusal, Shape};

// The bytes of input that the program reads at most, as many as decide every reading, and its work.
pub const MOST_INPUT: usize = 4096;

pub const WORK: usize = 65536;

// Plans what was read; a refusal of reading is the answer.
fn plan_read(handed: Handed, work: &mut [u8], rows: &mut [u8]) -> Result<Shape, Refusal>
    ensures { Answers handed (lent work) (lent rows) result }
{
    handed.reply?;
    plan(handed.design, work, rows)
}

// Plans the design in some bytes, puts the text into `out` and gives its length.
#[tactic(auto, using(crate::proofs::Reading::few_read))]
pub fn plan_bytes(bytes: &[u8], work: &mut [u8], rows: &mut [u8], out: &mut [u8]) -> usize
    requires { (4 * most_modules ≤ length rows.old) × (text_size ≤ length out.old) }
    ensures { Runs (given bytes) (lent work) (lent rows) (lent out) result }
{
    let handed = read(bytes);
    let planned = plan_read(handed, work, rows);
    let design = handed.design;
    plan_text(planned, design.modules, rows, out)
}

// Plans the design in the first `count` bytes of the input, over zeroed work, puts the text and gives its length.
// stays: (a) PlansInput, which docs/PROMISES.md names, pins by this type how many bytes the program reads at most.
pub fn plan_input(input: &[u8; MOST_INPUT], count: usize, out: &mut [u8; TEXT_SIZE]) -> usize
    requires { count ≤ program_input }
    ensures { PlansInput (given input) count (lent out) result }
{
    let mut work = [0u8; WORK];
    let mut rows = [0u8; 4 * MOST_MODULES];
    let bytes: &[u8] = input;
    plan_bytes(&bytes[..count], &mut work, &mut rows, out)
}
