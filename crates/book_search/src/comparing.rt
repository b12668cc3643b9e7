// The full comparisons of a search, as many as its rule makes.
ghost use Rattle.std.specs.Prelude.{◌≡◌, true, ◌≤◌, ◌<◌, length};
ghost use Rattle.cie.specs.Colour.{lab_difference};
ghost use Rattle.cie.specs.Sizes.{Sized};
ghost use Rattle.conditions.specs.Measure.{colour_under};
ghost use Rattle.conditions.specs.Lent.{conditions_lent};
ghost use Rattle.book.specs.Book.{count_of, is_book};
ghost use Rattle.shades.specs.Shades.{shade_under};
ghost use Rattle.nearest.specs.Rule.{answered, nearest};
ghost use Rattle.book_search.specs.Shades.{book_beside};
ghost use Rattle.book_search.specs.Searching.{nearest_outcome, end_of, Searchable};

use crate::NearestAnswer;
use cie::{Colour, LabUnits};
use colour::difference;
use conditions::lent::Lent;
use nearest::Search;

// E of a swatch's colour and a book's i-th shade, from 0: one full comparison.
fn compare(swatch: Colour, book: &[u8], i: usize, places: &mut [u16], lent: Lent<'_>) -> u32
    requires { Sized swatch × (length places.old ≡ lent.rows) × (is_book lent.rows book.now ≡ true) × (i < count_of book.now) }
    ensures { result ≡ (lab_difference swatch (shade_under (conditions_lent lent.entry) book.now i)).0 }
{
    let colour = shades::colour_under(book, i, places, lent);
    difference::lab_difference(swatch, colour).0
}

// What a search answers that goes on no more.
fn answer(search: Search, keys: &[u64]) -> NearestAnswer
    ensures { nearest_outcome result ≡ end_of search keys.now }
{
    NearestAnswer {
        count: search.count,
        shade: search.shade(),
        gap: LabUnits(search.gap(keys)),
        e: LabUnits(search.e),
    }
}

// The search in the order of the keys.
pub fn searched(
    budget: u32,
    swatch: Colour,
    book: &[u8],
    keys: &[u64],
    places: &mut [u16],
    lent: Lent<'_>,
) -> NearestAnswer
    requires { (length places.old ≡ lent.rows) × Searchable budget swatch book.now keys.now (conditions_lent lent) }
    ensures result_value { nearest_outcome result ≡ answered (nearest budget (book_beside (colour_under (conditions_lent lent.entry)) lent.entry.rows swatch book.now)) }
    ensures count_le_budget { result.count ≤ budget }
{
    let first = nearest::first(keys).unwrap();
    let e = compare(swatch, book, first, places, lent);
    let mut search = Search::begun(keys, first, e);
    while let Some(i) = search.turn(budget, keys) {
        let e = compare(swatch, book, i, places, lent);
        search = search.compared(keys, i, e);
    }
    answer(search, keys)
}
