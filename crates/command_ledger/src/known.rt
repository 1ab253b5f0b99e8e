// What the ledger knows of the board.

ghost use Rattle.std.specs.Prelude.{◌≡◌};
ghost use Rattle.command_ledger.specs.Known.{reach, progress, is_later, is_as_late, is_news, is_marked, has_told, obeyed};

use command_log::Record;

/// The order that brings a record to a board that has lost its own.
#[derive(Clone, Copy, Debug, PartialEq, Eq)]
pub(crate) struct Rebuild {
    pub(crate) mark: u32,
    pub(crate) boot: u32,
    pub(crate) last: u32,
}

/// All that is kept, except the commands.
#[derive(Clone, Copy, Debug, PartialEq, Eq)]
pub(crate) struct Standing {
    /// Every command up to this number has its fate.
    pub(crate) below: u32,
    /// The last record that was believed.
    pub(crate) board: Record,
    /// Nothing is known of the commands up to this number.
    pub(crate) doubt: u32,
    /// The mark of the loss that was reported last. It is forgotten if a record ends this loss and does not
    /// show that the board obeyed an order for it.
    pub(crate) mark: Option<u32>,
    /// Whether the board has no record, as far as is known.
    pub(crate) is_lost: bool,
    /// The last order, until a record shows that the board obeyed it.
    pub(crate) order: Option<Rebuild>,
}

/// The highest number whose packet is part of the board's history.
pub(crate) fn reach(kept: &Record) -> u32
    ensures { result ≡ reach kept.now }
{
    if kept.begun {
        kept.last.saturating_add(1)
    } else {
        kept.last
    }
}

fn progress(kept: &Record) -> u64
    ensures { result ≡ progress kept.now }
{
    u64::from(kept.last) * 2 + u64::from(kept.begun)
}

fn is_later(board: &Record, kept: &Record) -> bool
    ensures { result ≡ is_later board.now kept.now }
{
    board.boot < kept.boot || board.boot == kept.boot && progress(board) < progress(kept)
}

fn is_as_late(board: &Record, kept: &Record) -> bool
    ensures { result ≡ is_as_late board.now kept.now }
{
    board.boot == kept.boot && progress(board) == progress(kept)
}

/// Whether the record is later than the last known one or, while a loss stands, as late.
pub(crate) fn is_news(known: &Standing, kept: &Record) -> bool
    ensures { result ≡ is_news known.now kept.now }
{
    is_later(&known.board, kept) || known.is_lost && is_as_late(&known.board, kept)
}

/// Whether the record shows that the command was executed.
pub(crate) fn is_marked(kept: &Record, number: u32) -> bool
    ensures { result ≡ is_marked kept.now number }
{
    number <= kept.last && kept.last - number < 64 && (kept.known >> (kept.last - number)) % 2 == 1
}

/// Whether this mark is known: it is that of the loss that was reported last, and is not forgotten.
pub(crate) fn has_told(told: Option<u32>, mark: u32) -> bool
    ensures { result ≡ has_told told mark }
{
    match told {
        Some(it) => it == mark,
        None => false,
    }
}

/// The knowledge before the record or, if the record shows that the board obeyed the order, after the order.
pub(crate) fn obeyed(known: &Standing, kept: &Record) -> Standing
    ensures { result ≡ obeyed known.now kept.now }
{
    match known.order {
        Some(order) if order.boot <= kept.boot => Standing {
            board: Record {
                boot: order.boot,
                last: order.last,
                ..Record::new_board()
            },
            doubt: known.doubt.max(order.last),
            is_lost: known.is_lost && !has_told(known.mark, order.mark),
            order: None,
            ..*known
        },
        _ => *known,
    }
}
