// The planner's services, each for all inputs: its contract is one predicate of rules/specs/Service.antt. The tests come in the order in
// which the rules give the refusals.
#![tactic(auto)]

ghost use Rattle.std.specs.Prelude.{◌≡◌, ◌≤◌, length, Err};
ghost use Rattle.rules.specs.Design.{LawfulDesign, nodes, slots_of};
ghost use Rattle.rules.specs.Service.{work_of, Reads, Writes, Lists, Plans, Places, Edits, Checks, Scores};
ghost use Rattle.slots.specs.Size.{board_of};
ghost use Rattle.stairs.specs.Walk.{stairs_on};
ghost use Rattle.cellweaver.specs.Tested.{enough_lent};

use checker::judge_rows;
use editing::{changed_node, names_place, with_change};
use lawful::value_test;
use listing::{list_all, list_way};
use placing::place_lists;
use rules::{Cost, Design, Edit, Handed, Refusal, Score, Shape};
use scoring::{are_nets, are_terms, score_rows};
use slots::board_of;
use stairs::all_stairs;

// The work bytes that a lawful design's lists take.
// stays: (d) LawfulDesign, here and in the crates below: a type for it would be made and taken apart in each service.
pub fn work_needed(design: Design) -> usize
    requires { LawfulDesign design }
    ensures { result ≡ work_of design }
{
    let board = board_of(design);
    let width = board.width.0;
    let nodes = 2 * design.modules - 1;
    nodes * board.listed.0 * width * width
}

// The lent bytes are enough for a lawful design's lists and rows.
fn enough_lent(design: Design, work: &[u8], rows: &[u8]) -> bool
    requires { LawfulDesign design }
    ensures { result ≡ enough_lent design work.now rows.now }
{
    work_needed(design) <= work.len() && 4 * design.modules <= rows.len()
}

// Every slot of every node is a stair.
fn are_stairs(design: Design, work: &[u8]) -> bool
    requires { LawfulDesign design × (work_of design ≤ length work.now) }
    ensures { result ≡ stairs_on (board_of design) (nodes design) (slots_of design work.now) }
{
    all_stairs(work, board_of(design), 2 * design.modules - 1)
}

// Reads a design from bytes.
pub fn read(bytes: &[u8]) -> Handed
    ensures { Reads bytes.now result }
{
    reading::read_design(bytes)
}

// Writes a design to bytes.
pub fn write(design: Design, out: &mut [u8]) -> Result<usize, Refusal>
    ensures { Writes design out.old result out.new }
{
    writing::write_design(design, out)
}

// Fills the lists.
pub fn list(design: Design, work: &mut [u8]) -> Result<(), Refusal>
    ensures { Lists design work.old result work.new }
{
    value_test(design)?;
    if work.len() < work_needed(design) {
        return Err(Refusal::TooShort);
    }
    list_all(work, design);
    Ok(())
}

// Fills the lists, then places from them.
pub fn plan(design: Design, work: &mut [u8], rows: &mut [u8]) -> Result<Shape, Refusal>
    ensures { Plans design work.old rows.old result work.new rows.new }
{
    value_test(design)?;
    if !enough_lent(design, work, rows) {
        return Err(Refusal::TooShort);
    }
    list_all(work, design);
    place_lists(design, work, rows)
}

// Places from lists already filled, whoever filled them.
pub fn place(design: Design, work: &[u8], rows: &mut [u8]) -> Result<Shape, Refusal>
    ensures { Places design work.now rows.old result rows.new }
{
    value_test(design)?;
    if !enough_lent(design, work, rows) {
        return Err(Refusal::TooShort);
    }
    if !are_stairs(design, work) {
        return Err(Refusal::Unreliable);
    }
    place_lists(design, work, rows)
}

// Changes one need or turns one cut, and brings the lists up to date.
pub fn edit(design: Design, change: Edit, work: &mut [u8]) -> Handed
    ensures { Edits design change work.old result work.new }
{
    if let Err(e) = value_test(design) {
        return refused(design, e);
    }
    if !names_place(design, change) {
        return refused(design, Refusal::NoSuchEdit);
    }
    if work.len() < work_needed(design) {
        return refused(design, Refusal::TooShort);
    }
    if !are_stairs(design, work) {
        return refused(design, Refusal::Unreliable);
    }
    let next = with_change(design, change);
    list_way(work, next, changed_node(design, change));
    Handed {
        reply: Ok(()),
        design: next,
    }
}

// An edit that is refused hands the design back unchanged.
fn refused(design: Design, e: Refusal) -> Handed
    ensures { result ≡ record { reply = Err e; design = design } }
{
    Handed {
        reply: Err(e),
        design,
    }
}

// Judges a floorplan, without lists.
pub fn check(design: Design, rows: &[u8]) -> Result<(), Refusal>
    ensures { Checks design rows.now result }
{
    value_test(design)?;
    if rows.len() < 4 * design.modules {
        return Err(Refusal::TooShort);
    }
    judge_rows(design, rows)
}

// Scores a floorplan that the checker passes, by terms and nets.
pub fn score(design: Design, rows: &[u8], cost: Cost) -> Result<Score, Refusal>
    ensures { Scores design rows.now cost result }
{
    check(design, rows)?;
    if !are_terms(cost) {
        return Err(Refusal::BadTerm);
    }
    if !are_nets(design.modules, cost) {
        return Err(Refusal::BadNet);
    }
    Ok(score_rows(design, rows, cost))
}
