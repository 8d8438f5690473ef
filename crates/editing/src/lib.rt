// What an edit asks for: whether it names a place, the design with its one change, and the node that is changed.
#![tactic(auto)]

ghost use Rattle.std.specs.Prelude.{◌≡◌};
ghost use Rattle.std.proofs.Math.Bool.{So};
ghost use Rattle.rules.specs.Design.{LawfulDesign};
ghost use Rattle.rules.specs.Edit.{names_place, changed, changed_node};

use lawful::lawful_need;
use rules::{Design, Edit, Token};
use tokens::{byte_of_cut, is_cut, other, token_of};

// The edit names a module and brings a lawful need, or names a cut.
pub fn names_place(design: Design, edit: Edit) -> bool
    requires { LawfulDesign design }
    ensures { result ≡ names_place design edit }
{
    match edit {
        Edit::Change { module, need } => module < design.modules && lawful_need(need),
        Edit::Turn { position } => {
            position < 2 * design.modules - 1 && is_cut(token_of(design.tokens[position]))
        }
    }
}

// The design with that one change.
pub fn with_change(design: Design, edit: Edit) -> Design
    requires { LawfulDesign design × So (names_place design edit) }
    ensures { result ≡ changed design edit }
{
    let mut next = design;
    match edit {
        Edit::Change { module, need } => {
            next.needs[module] = need;
        }
        Edit::Turn { position } => {
            let token = token_of(next.tokens[position]);
            let Token::Cut(cut) = token else {
                return design;
            };
            next.tokens[position] = byte_of_cut(other(cut));
        }
    }
    next
}

// The changed node: the cut itself, or the module's leaf.
pub fn changed_node(design: Design, edit: Edit) -> usize
    requires { LawfulDesign design × So (names_place design edit) }
    ensures { result ≡ changed_node design edit }
{
    match edit {
        Edit::Change { module, need: _ } => trees::position_of(design, module),
        Edit::Turn { position } => position,
    }
}
