//! Laws of the definitions: each function does nothing, and its contract is the law.
ghost use Rattle.wkt_read.specs.Laws.{OneMessage};
ghost use Rattle.wkt_values.specs.Laws.{GrowsFromEvents};

use wkt_num::WktNum;

/// A value whose coordinates fit their headers grows from its events, so these determine it.
pub fn grows<T: WktNum>()
    ensures { GrowsFromEvents T.is_value }
{}

/// A text has a front, or it is refused with one message.
pub fn one_message<T: WktNum>()
    ensures { OneMessage T.read }
{}
