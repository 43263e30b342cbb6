//! A symbol's bid and offer before and after a message, and a quote for each that changed.

ghost use Rattle.std.specs.Prelude.{◌≡◌, ◌++◌, OnOk, OnErr};
ghost use Rattle.pitch_model.specs.Book.{Book, IsBook};
ghost use Rattle.pitch_model.specs.Levels.{level};
ghost use Rattle.best_quotes.specs.Changes.{same_best, change_between};
ghost use Rattle.best_quotes.specs.Leveling.{Has};
ghost use Rattle.best_quotes.specs.layers.Turning.{bests_of, changes_between};

use crate::levels::{Levels, best_level};
use crate::prices::Best;
use crate::quote::Quote;
use pitch_fields::{OutOfMemory, Side, Symbol};
use pitch_messages::List;

/// A list of quotes.
pub type QuoteList = List<Quote>;

// The bests of both sides of a symbol.
#[derive(Clone, Copy)]
pub(crate) struct Bests {
    pub(crate) buy: Best,
    pub(crate) sell: Best,
}

pub(crate) fn bests_of(levels: &Levels, symbol: Symbol) -> Bests
    ensures { (book : Book) → IsBook book → Has levels.now.entries (level book)
        → result ≡ bests_of book symbol }
{
    Bests {
        buy: best_level(levels, symbol, Side::Buy),
        sell: best_level(levels, symbol, Side::Sell),
    }
}

fn same_best(before: Best, now: Best) -> bool
    ensures { result ≡ same_best before now }
{
    match before {
        None => match now {
            None => true,
            Some(_) => false,
        },
        Some(before) => match now {
            None => false,
            Some(now) => before.0 == now.0 && before.1 == now.1,
        },
    }
}

// Appends a quote, where its best is another than before.
pub(crate) fn tell(told: &mut QuoteList, before: Best, quote: Quote) -> Result<(), OutOfMemory>
    ensures { OnOk result (told.new.items
        ≡ told.old.items ++ change_between quote.symbol quote.side before quote.best) }
{
    if !same_best(before, quote.best) {
        told.push(quote)?;
    }
    Ok(())
}

// Appends the quotes of a symbol whose bests became others: to buy, and then to sell.
pub(crate) fn tell_both(
    told: &mut QuoteList,
    symbol: Symbol,
    before: Bests,
    now: Bests,
) -> Result<(), OutOfMemory>
    ensures { OnOk result
        (told.new.items ≡ told.old.items ++ changes_between symbol before now) }
{
    let to_buy = Quote {
        symbol,
        side: Side::Buy,
        best: now.buy,
    };
    tell(told, before.buy, to_buy)?;
    let to_sell = Quote {
        symbol,
        side: Side::Sell,
        best: now.sell,
    };
    tell(told, before.sell, to_sell)?;
    Ok(())
}
