// The nearest shade of a book under conditions, in the time there is.
#![tactic(auto)]

ghost use Rattle.std.specs.Prelude.{◌≡◌, true, false, ◌≤◌, length};
ghost use Rattle.cie.specs.Sizes.{Sized};
ghost use Rattle.conditions.specs.Conditions.{Sound};
ghost use Rattle.conditions.specs.Lent.{conditions_lent};
ghost use Rattle.conditions.specs.Measure.{colour_under};
ghost use Rattle.book.specs.Book.{count_of, is_book, Contents};
ghost use Rattle.nearest.specs.Rule.{answered, nearest};
ghost use Rattle.book_search.specs.Shades.{book_beside};
ghost use Rattle.book_search.specs.Searching.{empty_look, nearest_outcome, search_answer, searched_under, WithinBudget};

use book::layout::MOST_SHADES;
use book::reader;
use causes::Cause;
use cie::spacing::MOST_ROWS;
use cie::spectrum::FRAME_LIMIT;
use cie::{Colour, LabUnits};
use conditions::lent::Lent;
use conditions::{Conditions, measure};

mod comparing;
mod keys;

// What a search answers: how many full comparisons were made, the best shade's number, the gap, and the best E.
#[derive(Clone, Copy, Debug, PartialEq, Eq)]
pub struct NearestAnswer {
    pub count: u32,
    pub shade: u16,
    pub gap: LabUnits,
    pub e: LabUnits,
}

// Whether there is nothing to look at: no shade in the book, or a budget of 0.
fn is_empty_look(budget: u32, book: &[u8]) -> bool
    requires { Contents book.now }
    ensures { result ≡ empty_look budget book.now }
{
    reader::count(book) == 0 || budget == 0
}

// The nearest shade to a swatch's colour, with a place lent for each shade's key and for each reading of a shade.
fn nearest_by(
    budget: u32,
    swatch: Colour,
    book: &[u8],
    keys: &mut [u64],
    places: &mut [u16],
    lent: Lent<'_>,
) -> NearestAnswer
    requires { Sized swatch × (is_book lent.rows book.now ≡ true) × (empty_look budget book.now ≡ false) × (length keys.old ≡ count_of book.now) × (length places.old ≡ lent.rows) }
    ensures result_value { nearest_outcome result ≡ answered (nearest budget (book_beside (colour_under (conditions_lent lent.entry)) lent.entry.rows swatch book.now)) }
    ensures count_le_budget { result.count ≤ budget }
{
    keys::put_keys(
        keys,
        swatch.l,
        book,
        places,
        lent.white.sums.y,
        lent.weights.y,
    );
    comparing::searched(budget, swatch, book, keys, places, lent)
}

// The nearest shade to a swatch's colour, in fixed memory.
fn nearest_to(budget: u32, swatch: Colour, book: &[u8], lent: Lent<'_>) -> NearestAnswer
    requires { Sized swatch × (is_book lent.rows book.now ≡ true) × (empty_look budget book.now ≡ false) }
    ensures result_value { nearest_outcome result ≡ answered (nearest budget (book_beside (colour_under (conditions_lent lent.entry)) lent.entry.rows swatch book.now)) }
    ensures count_le_budget { result.count ≤ budget }
{
    let mut keys = [0u64; MOST_SHADES];
    let mut places = [0u16; MOST_ROWS];
    let n = reader::count(book);
    nearest_by(
        budget,
        swatch,
        book,
        &mut keys[..n],
        &mut places[..lent.rows],
        lent,
    )
}

// A search under opened conditions, which are lent.
fn searched_by(
    budget: u32,
    swatch: &[u16],
    book: &[u8],
    lent: Lent<'_>,
) -> Result<NearestAnswer, Cause>
    ensures result_value { search_answer result ≡ searched_under (conditions_lent lent.entry) true budget swatch.now book.now }
    ensures within_budget { WithinBudget budget (search_answer result) }
{
    let measured = measure::measure(swatch, FRAME_LIMIT, lent.rows, lent.weights);
    // docs/DECISIONS.md fixes this form: `let .. else` on the measuring answer, and not `?`.
    let Ok(sums) = measured else {
        return Err(measured.unwrap_err());
    };
    if !reader::is_book(book, lent.rows) {
        return Err(Cause::NotABook);
    }
    if is_empty_look(budget, book) {
        return Err(Cause::EmptyLook);
    }
    let colour = colour::colour_of(sums, lent.white);
    Ok(nearest_to(budget, colour, book, lent))
}

// Searches a book for the shade nearest to a swatch in CIELAB, with so many full comparisons at most.
pub fn search(
    conditions: &Conditions,
    opened: bool,
    budget: u32,
    swatch: &[u16],
    book: &[u8],
) -> Result<NearestAnswer, Cause>
    requires { Sound conditions.now }
    ensures result_value { search_answer result ≡ searched_under conditions.now opened budget swatch.now book.now }
    ensures within_budget { WithinBudget budget (search_answer result) }
{
    if !opened {
        return Err(Cause::NoConditions);
    }
    searched_by(budget, swatch, book, conditions.lend())
}
