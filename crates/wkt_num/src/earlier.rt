//! Laws on earlier forms of this library, which read fewer bits or fewer places: what a store wrote then keeps its
//! meaning. Nobody who begins today needs them.
ghost use Rattle.wkt_num.specs.Decimal.{ReadsAsBefore, PrintsAsBefore, FinerKeeps};

/// Each text that was read over 63 bits beside the sign is read over 127 as the same number of
/// units, and each number of units that fits 63 bits is printed as it was.
pub fn wider_keeps()
    ensures reads { ReadsAsBefore }
    ensures prints { PrintsAsBefore }
{}

/// Each text that six places read over 63 bits beside the sign, eighteen places read as a number that
/// is printed the same.
pub fn finer_keeps()
    ensures { FinerKeeps }
{}
