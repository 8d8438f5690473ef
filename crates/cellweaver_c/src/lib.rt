// The services for C and Rust: a static library's functions on numbers and byte slices. A design is its bytes, read
// first by each function. Each returns the reply's number, and puts what stands beside it into places that are lent.
#![tactic(auto)]

ghost use Rattle.std.specs.Prelude.{◌≡◌};
ghost use Rattle.rules.specs.declared.Edit.TheVariants.{Turn};
ghost use Rattle.rules.specs.Design.{LawfulDesign};
ghost use Rattle.rules.specs.Reply.{refusal, answer, written_answer, planned_answer, scored_answer};
ghost use Rattle.lending.specs.Lent.{given, lent};
ghost use Rattle.cellweaver_c.specs.Asked.{said, boxed, marked, sizes, sizes_of, asked, new_need};
ghost use Rattle.cellweaver_c.specs.Asked.{AskedRead, AskedSizes, AskedWrite, AskedList, AskedPlan, AskedPlace};
ghost use Rattle.cellweaver_c.specs.Asked.{AskedCheck, AskedScore, AskedEdit, EditsInto};

use cellweaver::{check, edit, list, place, plan, read, work_needed, write};
use costs::score_slices;
use replies::number_of;
use rules::{Design, Edit, Need, Refusal, Score, Shape};
use writing::design_size;

// A refusal's number, and its value.
fn say_refused(e: Refusal, value: &mut usize) -> usize
    ensures { said result value ≡ refusal e }
{
    let said = number_of(e);
    *value = said.1;
    said.0
}

// A reply's number, and its value.
fn say(reply: Result<(), Refusal>, value: &mut usize) -> usize
    ensures { said result value ≡ answer reply }
{
    if let Err(e) = reply {
        return say_refused(e, value);
    }
    *value = 0;
    0
}

// The number of what write answers, and the count of bytes.
fn say_written(written: Result<usize, Refusal>, value: &mut usize) -> usize
    ensures { said result value ≡ written_answer written }
{
    match written {
        Ok(n) => {
            *value = n;
            0
        }
        Err(e) => say_refused(e, value),
    }
}

// The number of what plan and place answer, the box and the value.
fn say_planned(
    planned: Result<Shape, Refusal>,
    width: &mut usize,
    height: &mut usize,
    value: &mut usize,
) -> usize
    ensures { boxed result value width height ≡ planned_answer planned }
{
    match planned {
        Ok(s) => {
            *width = s.w.0;
            *height = s.h.0;
            *value = 0;
            0
        }
        Err(e) => {
            *width = 0;
            *height = 0;
            say_refused(e, value)
        }
    }
}

// The number of what score answers, both values and the value.
fn say_scored(
    scored: Result<Score, Refusal>,
    total: &mut f64,
    last: &mut f64,
    value: &mut usize,
) -> usize
    ensures { marked result value total last ≡ scored_answer scored }
{
    match scored {
        Ok(s) => {
            *total = s.total;
            *last = s.last;
            *value = 0;
            0
        }
        Err(e) => {
            *total = 0.0;
            *last = 0.0;
            say_refused(e, value)
        }
    }
}

// Edits a lawful design, and puts the bytes of the one that is handed back. Where `out` is too short no work is lent:
// that is 11 or 8.
fn edit_into(
    design: Design,
    change: Edit,
    work: &mut [u8],
    out: &mut [u8],
    value: &mut usize,
) -> usize
    requires { LawfulDesign design }
    ensures { EditsInto design change (lent work) (lent out) (said result value) }
{
    if out.len() < design_size() {
        let mut none = [0u8; 0];
        return say(edit(design, change, &mut none).reply, value);
    }
    let handed = edit(design, change, work);
    if let Err(e) = handed.reply {
        return say_refused(e, value);
    }
    let next = handed.design;
    say_written(write(next, out), value)
}

// Reads a design and edits it.
fn edit_bytes(
    bytes: &[u8],
    change: Edit,
    work: &mut [u8],
    out: &mut [u8],
    value: &mut usize,
) -> usize
    ensures { AskedEdit (given bytes) change (lent work) (lent out) (said result value) }
{
    let handed = read(bytes);
    if let Err(e) = handed.reply {
        return say_refused(e, value);
    }
    edit_into(handed.design, change, work, out, value)
}

// Reads a design.
#[unsafe(no_mangle)]
pub extern "C" fn cellweaver_read(bytes: &[u8], value: &mut usize) -> usize
    ensures { AskedRead (given bytes) (said result value) }
{
    say(read(bytes).reply, value)
}

// Puts the sizes of a lawful design into places: W, H, m, and the bytes that its lists and its rows take.
fn put_sizes(
    design: Design,
    width: &mut usize,
    height: &mut usize,
    modules: &mut usize,
    work: &mut usize,
    rows: &mut usize,
)
    requires { LawfulDesign design }
    ensures { sizes width height modules work rows ≡ sizes_of design }
{
    *width = design.chip.width.0;
    *height = design.chip.height.0;
    *modules = design.modules;
    *work = work_needed(design);
    *rows = 4 * design.modules;
}

// Reads a design, and says its sizes.
#[unsafe(no_mangle)]
pub extern "C" fn cellweaver_sizes(
    bytes: &[u8],
    width: &mut usize,
    height: &mut usize,
    modules: &mut usize,
    work: &mut usize,
    rows: &mut usize,
    value: &mut usize,
) -> usize
    ensures { AskedSizes (given bytes) (sizes width height modules work rows) (said result value) }
{
    let handed = read(bytes);
    if let Err(e) = handed.reply {
        *width = 0;
        *height = 0;
        *modules = 0;
        *work = 0;
        *rows = 0;
        return say_refused(e, value);
    }
    put_sizes(handed.design, width, height, modules, work, rows);
    *value = 0;
    0
}

// Writes a design.
// stays: (a) the C interface, here and below: one exported function for each service, which all begin with reading.
#[unsafe(no_mangle)]
pub extern "C" fn cellweaver_write(bytes: &[u8], out: &mut [u8], value: &mut usize) -> usize
    ensures { AskedWrite (given bytes) (lent out) (said result value) }
{
    let handed = read(bytes);
    if let Err(e) = handed.reply {
        return say_refused(e, value);
    }
    say_written(write(handed.design, out), value)
}

// Fills the lists.
#[unsafe(no_mangle)]
pub extern "C" fn cellweaver_list(bytes: &[u8], work: &mut [u8], value: &mut usize) -> usize
    ensures { AskedList (given bytes) (lent work) (said result value) }
{
    let handed = read(bytes);
    if let Err(e) = handed.reply {
        return say_refused(e, value);
    }
    say(list(handed.design, work), value)
}

// Lists, then places.
#[unsafe(no_mangle)]
pub extern "C" fn cellweaver_plan(
    bytes: &[u8],
    work: &mut [u8],
    rows: &mut [u8],
    width: &mut usize,
    height: &mut usize,
    value: &mut usize,
) -> usize
    ensures { AskedPlan (given bytes) (lent work) (lent rows) (boxed result value width height) }
{
    let handed = read(bytes);
    if let Err(e) = handed.reply {
        return say_planned(Err(e), width, height, value);
    }
    say_planned(plan(handed.design, work, rows), width, height, value)
}

// Places from lists that are filled already.
#[unsafe(no_mangle)]
pub extern "C" fn cellweaver_place(
    bytes: &[u8],
    work: &[u8],
    rows: &mut [u8],
    width: &mut usize,
    height: &mut usize,
    value: &mut usize,
) -> usize
    ensures { AskedPlace (given bytes) (given work) (lent rows) (boxed result value width height) }
{
    let handed = read(bytes);
    if let Err(e) = handed.reply {
        return say_planned(Err(e), width, height, value);
    }
    say_planned(place(handed.design, work, rows), width, height, value)
}

// Judges a floorplan.
#[unsafe(no_mangle)]
pub extern "C" fn cellweaver_check(bytes: &[u8], rows: &[u8], value: &mut usize) -> usize
    ensures { AskedCheck (given bytes) (given rows) (said result value) }
{
    let handed = read(bytes);
    if let Err(e) = handed.reply {
        return say_refused(e, value);
    }
    say(check(handed.design, rows), value)
}

// Scores a floorplan that the checker passes, by terms (kinds and weights) and nets (n k1..kn, one after another).
#[unsafe(no_mangle)]
pub extern "C" fn cellweaver_score(
    bytes: &[u8],
    rows: &[u8],
    kinds: &[u8],
    weights: &[f64],
    nets: &[u8],
    total: &mut f64,
    last: &mut f64,
    value: &mut usize,
) -> usize
    ensures { AskedScore (given bytes) (given rows) (asked kinds weights nets) (marked result value total last) }
{
    let handed = read(bytes);
    if let Err(e) = handed.reply {
        return say_scored(Err(e), total, last, value);
    }
    let scored = score_slices(handed.design, rows, kinds, weights, nets);
    say_scored(scored, total, last, value)
}

// Changes one need.
#[unsafe(no_mangle)]
pub extern "C" fn cellweaver_edit_need(
    bytes: &[u8],
    k: usize,
    clbs: usize,
    rams: usize,
    multipliers: usize,
    work: &mut [u8],
    out: &mut [u8],
    value: &mut usize,
) -> usize
    ensures { AskedEdit (given bytes) (new_need k clbs rams multipliers) (lent work) (lent out) (said result value) }
{
    let need = Need {
        clbs,
        rams,
        multipliers,
    };
    edit_bytes(bytes, Edit::Change { module: k, need }, work, out, value)
}

// Turns one cut.
#[unsafe(no_mangle)]
pub extern "C" fn cellweaver_edit_turn(
    bytes: &[u8],
    position: usize,
    work: &mut [u8],
    out: &mut [u8],
    value: &mut usize,
) -> usize
    ensures { AskedEdit (given bytes) (Turn position) (lent work) (lent out) (said result value) }
{
    edit_bytes(bytes, Edit::Turn { position }, work, out, value)
}
