// One floorplan from stored lists that are all stairs: the root's shape, the rectangles that going down gives, and rows out.
#![tactic(auto)]

ghost use Rattle.std.specs.Prelude.{◌≡◌, ◌++◌, ◌+◌, ◌*◌, ◌≤◌, ◌<◌, length, drop, All};
ghost use Rattle.std.proofs.lemmas.List.Edits.{sets};
ghost use Rattle.rules.specs.Search.{all};
ghost use Rattle.rules.specs.Chip.{OnChip};
ghost use Rattle.rules.specs.Choice.{row_of, rows_out};
ghost use Rattle.rules.specs.Design.{most_columns, most_rows, most_modules, LawfulDesign, nodes, slots_of, AllStairs, width_of, height_of};
ghost use Rattle.rules.specs.Check.{is_suited};
ghost use Rattle.rules.specs.Service.{Enough, work_of};
ghost use Rattle.choosing.specs.Descend.{place_of};
ghost use Rattle.slots.specs.Size.{board_of};
ghost use Rattle.placing.specs.Place.{PlacesOn, FromStairs, WentDown, PlacedFrom, RowsLent};

use choosing::{Lists, best_shape, lay_out};
use holding::suits;
use rows::row_out;
use rules::{Design, MOST_MODULES, Rectangle, Refusal, Shape};
use slots::board_of;
use trees::left_children;

// The stored lists of a design's nodes.
fn lists_of<'a>(design: Design, work: &'a [u8]) -> Lists<'a>
    requires { LawfulDesign design × (work_of design ≤ length work.now) }
    ensures of { (result.board ≡ board_of design) × (result.nodes ≡ nodes design) × (result.work.now ≡ work.now) }
    ensures some { 1 ≤ result.nodes }
{
    Lists {
        work,
        board: board_of(design),
        nodes: 2 * design.modules - 1,
    }
}

// Every module's place holds what it needs.
fn all_suit(design: Design, places: &[Rectangle]) -> bool
    requires lawful { LawfulDesign design }
    requires modules { length places.now ≡ design.modules }
    requires on { All (λ r. OnChip (width_of design) (height_of design) r) places.now }
    ensures { result ≡ all design.modules (λ k. is_suited design k (place_of places.now k)) }
{
    places
        .iter()
        .enumerate()
        .all(|(k, place)| suits(design, k, *place))
}

// Going down from the root's shape at (0, 0), if every cut has a pair and every leaf's shape suits.
fn go_down(design: Design, work: &[u8], shape: Shape) -> Option<[Rectangle; MOST_MODULES]>
    requires { FromStairs design work.now shape }
    ensures { WentDown design (slots_of design work.now) shape result }
{
    let lists = lists_of(design, work);
    let places = lay_out(lists, design.tokens, left_children(design), shape)?;
    all_suit(design, &places[..design.modules]).then_some(places)
}

// "Rows out: four bytes x, y, w, h for each module, in module order; lent bytes past 4m stay."
fn rows_out(places: &[Rectangle], rows: &mut [u8])
    requires { RowsLent (length places.now) places.now rows.old }
    ensures { rows.new ≡ rows_out (length places.now) (place_of places.now) ++ drop (4 * length places.now) rows.old }
{
    for (k, place) in places.iter().enumerate() {
        row_out(rows, k, *place);
    }
}

// One floorplan from the lists in work: 10 where the root's list at (0, 0) is empty, 9 where going down fails, and else the box and
// the rows.
pub fn place_lists(design: Design, work: &[u8], rows: &mut [u8]) -> Result<Shape, Refusal>
    requires { Enough design work.now rows.old × AllStairs design (slots_of design work.now) }
    ensures { PlacedFrom design work.now rows.old result rows.new }
{
    let lists = lists_of(design, work);
    let Some(shape) = best_shape(lists, lists.nodes - 1) else {
        return Err(Refusal::NoPlacement);
    };
    let Some(places) = go_down(design, work, shape) else {
        return Err(Refusal::Unreliable);
    };
    rows_out(&places[..design.modules], rows);
    Ok(shape)
}
