// Reading a design from bytes: each number is judged as it is read, and the first refusal is the reply.
#![tactic(auto)]

ghost use Rattle.std.specs.Prelude.{◌≡◌, [], ℕ, ◌≤◌, eqb, length};
ghost use Rattle.rules.specs.declared.Refusal.TheVariants.{WrongForm, BreaksLimits};
ghost use Rattle.rules.specs.Design.{most_columns, most_modules, lawful_kind};
ghost use Rattle.rules.specs.Bytes.{Took, row_at, checked_at, limited_at, need_of, chip_from, design_from, design_at};
ghost use Rattle.rules.specs.Service.{Reads};
ghost use Rattle.numbers.specs.Replies.{reply_of};
ghost use Rattle.reading.specs.Stages.{Answers, RowRead, sizes_at, kinds_at, needs_at, tree_at};

use numbers::{NumberReply, Taken};
use rules::{
    Chip, Columns, Design, Handed, LAST_KIND, MOST_COLUMNS, MOST_MODULES, MOST_ROWS, MOST_TOKENS,
    Need, Refusal, Rows,
};
use tokens::token_of_number;

// A need before it is read.
const NO_NEED: Need = Need {
    clbs: 0,
    rams: 0,
    multipliers: 0,
};

// The form number, which has to be 1.
// stays: (a) docs/DECISIONS.md (Language forms): each number is taken apart by let .. else; a refusal carries its position.
#[tactic(auto, using(crate::proofs::Answers::replies), unfolding(rules::specs::Bytes::checked_at))]
fn form(s: &[u8]) -> NumberReply
    ensures { result ≡ reply_of (checked_at (λ v. eqb v 1) WrongForm s.now 0) }
{
    let number = numbers::take_number(s, 0);
    let Ok(taken) = number else {
        return number;
    };
    if taken.value != 1 {
        return Err(Refusal::WrongForm(0));
    }
    number
}

// The number at `at`, which has to be within its limits.
#[tactic(auto, using(crate::proofs::Answers::replies), unfolding(rules::specs::Bytes::checked_at))]
fn limited(s: &[u8], at: usize, low: usize, most: usize) -> NumberReply
    ensures { result ≡ reply_of (limited_at low most s.now at) }
{
    let number = numbers::take_number(s, at);
    let Ok(taken) = number else {
        return number;
    };
    if !lawful::in_range(low, most, taken.value) {
        return Err(Refusal::BreaksLimits(at));
    }
    number
}

// A design of these sizes, whose other places are zero.
#[tactic(auto, unfolding(rules::specs::Bytes::padded))]
fn empty(width: Columns, height: Rows, block: Rows) -> Design
    ensures { result ≡ design_from (chip_from width.0 height.0 block.0 []) 0 [] [] }
{
    let kinds = [0u8; MOST_COLUMNS];
    let needs = [NO_NEED; MOST_MODULES];
    let tokens = [0u8; MOST_TOKENS];
    let chip = Chip {
        width,
        height,
        block,
        kinds,
    };
    Design {
        chip,
        modules: 0,
        needs,
        tokens,
    }
}

// The form number, then W, H and B, in a design whose other places are zero.
#[tactic(auto, using(crate::proofs::Answers::replies), unfolding(crate::specs::Stages::sizes_at))]
fn read_sizes(s: &[u8]) -> Result<Taken<Design>, Refusal>
    ensures { result ≡ reply_of (sizes_at s.now) }
{
    let number = form(s);
    let Ok(form) = number else {
        return Err(number.unwrap_err());
    };
    let number = limited(s, form.next, 1, MOST_COLUMNS);
    let Ok(width) = number else {
        return Err(number.unwrap_err());
    };
    let number = limited(s, width.next, 1, MOST_ROWS);
    let Ok(height) = number else {
        return Err(number.unwrap_err());
    };
    let number = limited(s, height.next, 1, height.value);
    let Ok(block) = number else {
        return Err(number.unwrap_err());
    };
    Ok(Taken {
        value: empty(Columns(width.value), Rows(height.value), Rows(block.value)),
        next: block.next,
    })
}

// A row of things, each read where the last one ended; the position after the last.
fn read_row<T, F>(row: &mut [T], at: usize, read: F) -> Result<usize, Refusal>
where
    T: Copy,
    F: Fn(usize) -> Result<Taken<T>, Refusal>,
    requires { F.IsAlwaysCallable read }
    ensures { (f : ℕ → Took T) → Answers f (F.post read) → RowRead (row_at f (length row.old) at) row.new result }
{
    let mut next = at;
    for x in row.iter_mut() {
        let taken = read(next)?;
        *x = taken.value;
        next = taken.next;
    }
    Ok(next)
}

// The kind at `at`.
#[tactic(auto, using(crate::proofs::Answers::kind_fits, crate::proofs::Answers::kind_read, crate::proofs::Answers::kind_unread))]
fn read_kind(s: &[u8], at: usize) -> Result<Taken<u8>, Refusal>
    ensures { result ≡ reply_of (checked_at lawful_kind BreaksLimits s.now at) }
{
    let number = limited(s, at, 0, LAST_KIND as usize);
    let Ok(taken) = number else {
        return Err(number.unwrap_err());
    };
    Ok(Taken {
        value: taken.value as u8,
        next: taken.next,
    })
}

// The kinds of the columns.
fn read_kinds(s: &[u8], last: Taken<Design>) -> Result<Taken<Design>, Refusal>
    requires { last.value.chip.width.0 ≤ most_columns }
    ensures { result ≡ reply_of (kinds_at s.now last.value last.next) }
{
    let mut design = last.value;
    let mut kinds = [0u8; MOST_COLUMNS];
    let row = &mut kinds[..design.chip.width.0];
    let next = read_row(row, last.next, |at| read_kind(s, at))?;
    design.chip.kinds = kinds;
    Ok(Taken {
        value: design,
        next,
    })
}

// The need at `at`: three numbers, not all zero.
#[tactic(auto, using(crate::proofs::Answers::replies), unfolding(rules::specs::Bytes::need_of))]
fn read_need(s: &[u8], at: usize) -> Result<Taken<Need>, Refusal>
    ensures { result ≡ reply_of (need_of s.now at) }
{
    let number = numbers::take_number(s, at);
    let Ok(clbs) = number else {
        return Err(number.unwrap_err());
    };
    let number = numbers::take_number(s, clbs.next);
    let Ok(rams) = number else {
        return Err(number.unwrap_err());
    };
    let number = numbers::take_number(s, rams.next);
    let Ok(multipliers) = number else {
        return Err(number.unwrap_err());
    };
    let need = Need {
        clbs: clbs.value,
        rams: rams.value,
        multipliers: multipliers.value,
    };
    if !lawful::lawful_need(need) {
        return Err(Refusal::BreaksLimits(at));
    }
    Ok(Taken {
        value: need,
        next: multipliers.next,
    })
}

// The count of modules, and the need of each.
#[tactic(auto, using(crate::proofs::Answers::replies), unfolding(crate::specs::Stages::needs_at))]
fn read_needs(s: &[u8], last: Taken<Design>) -> Result<Taken<Design>, Refusal>
    ensures { result ≡ reply_of (needs_at s.now last.value last.next) }
{
    let mut design = last.value;
    let number = limited(s, last.next, 1, MOST_MODULES);
    let Ok(modules) = number else {
        return Err(number.unwrap_err());
    };
    let mut needs = [NO_NEED; MOST_MODULES];
    let row = &mut needs[..modules.value];
    let next = read_row(row, modules.next, |at| read_need(s, at))?;
    design.modules = modules.value;
    design.needs = needs;
    Ok(Taken {
        value: design,
        next,
    })
}

// The tokens, over the stack of what stands.
fn read_tokens(s: &[u8], last: Taken<Design>) -> Result<Taken<Design>, Refusal>
    requires { (1 ≤ last.value.modules) × (last.value.modules ≤ most_modules) }
    ensures { result ≡ reply_of (tree_at s.now last.value last.next) }
{
    let mut design = last.value;
    let m = design.modules;
    let mut tokens = [0u8; MOST_TOKENS];
    let mut stack = lawful::empty_stack();
    let mut at = last.next;
    for byte in &mut tokens[..2 * m - 1] {
        let number = numbers::take_number(s, at);
        let Ok(taken) = number else {
            return Err(number.unwrap_err());
        };
        let token = token_of_number(taken.value);
        stack = lawful::after_token(m, token, stack).ok_or(Refusal::BadToken(at))?;
        *byte = taken.value as u8;
        at = taken.next;
    }
    if stack.count != 1 {
        return Err(Refusal::NotOneThing(s.len()));
    }
    design.tokens = tokens;
    Ok(Taken {
        value: design,
        next: at,
    })
}

// The design that the bytes hold and the position after it, or the first refusal.
#[tactic(auto, using(crate::proofs::Answers::replies, crate::proofs::Whole::in_stages))]
fn read_stages(s: &[u8]) -> Result<Taken<Design>, Refusal>
    ensures { result ≡ reply_of (design_at s.now) }
{
    let sizes = read_sizes(s)?;
    let columns = read_kinds(s, sizes)?;
    let modules = read_needs(s, columns)?;
    let tree = read_tokens(s, modules)?;
    if tree.next != s.len() {
        return Err(Refusal::ExtraBytes(tree.next));
    }
    Ok(tree)
}

// The same, with a design beside a refusal too: all zeros.
#[tactic(auto, using(numbers::proofs::Answers::was_refused), unfolding(rules::specs::Service::zeros))]
pub fn read_design(s: &[u8]) -> Handed
    ensures { Reads s.now result }
{
    match read_stages(s) {
        Ok(taken) => Handed {
            reply: Ok(()),
            design: taken.value,
        },
        Err(e) => Handed {
            reply: Err(e),
            design: empty(Columns(0), Rows(0), Rows(0)),
        },
    }
}
