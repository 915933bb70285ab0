//! Events as rows of tables.

use sharc_tree::event::{Act, CellAt, Object, SourceEvent};
use sharc_tree::token::Site;
use std::alloc::{AllocError, Global};

pub const G: CellAt = CellAt {
    object: Object::Global(0),
    cell: 0,
};

pub const MUTEX: CellAt = CellAt {
    object: Object::Global(1),
    cell: 0,
};

/// The cells of object 1.
pub const OWN: CellAt = CellAt {
    object: Object::Made(1),
    cell: 0,
};

pub const OWN_BESIDE: CellAt = CellAt {
    object: Object::Made(1),
    cell: 1,
};

/// The thread, what it does, and the answer.
pub type Row = (u32, Act, i64);

fn event(row: Row) -> SourceEvent {
    SourceEvent {
        thread: row.0,
        site: Site {
            file: 0,
            line: 1,
            token: 0,
        },
        answer: row.2,
        act: row.1,
    }
}

/// The first of these rows, and then one more.
pub fn events(
    alloc: Global,
    rows: &[Row],
    count: usize,
    last: Row,
) -> Result<Vec<SourceEvent>, AllocError> {
    let mut events = Vec::new(alloc);
    for row in rows.iter().take(count) {
        events.push(event(*row))?;
    }
    events.push(event(last))?;
    Ok(events)
}
