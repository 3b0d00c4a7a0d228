// The octets at fault: "a part of the IP or the AS value, from the place to that value's end".
ghost use Rattle.std.specs.Prelude.{◌≡◌};
ghost use Rattle.values.specs.Parted.{has_octets, fault_octets, fault_pointer};
ghost use Rattle.values.specs.Readings.{read_both};

use crate::{limits, readings};
use number::refusal::Refusal;

// Returns whether a refusal has octets at fault: "the refusal is 11, 16 or 1" has none.
pub fn has_octets(refusal: Refusal) -> bool
    ensures { result ≡ has_octets refusal }
{
    !matches!(
        refusal,
        Refusal::RowCount | Refusal::TableShort | Refusal::ValueSize
    )
}

// Returns the octets at fault of one certificate's two values, borrowed from the value that was refused; the empty part at the start of the IP value where there are none.
// The table is left as by `read_both`.
pub fn fault<'a>(ip: &'a [u8], ids: &'a [u8], table: &mut [u64]) -> &'a [u8]
    ensures octets { result.now ≡ fault_octets ip.now ids.now table.old }
    ensures pointer { result.ref_ptr ≡ fault_pointer ip.entry.ref_ptr ids.entry.ref_ptr ip.now ids.now table.old }
    ensures left { table.new ≡ (read_both ip.now ids.now table.old).1 }
{
    match readings::read_both(ip, ids, table) {
        Err(fault) if has_octets(fault.refusal) => {
            if fault.extension == limits::IP_EXTENSION {
                &ip[fault.place..]
            } else {
                &ids[fault.place..]
            }
        }
        _ => &ip[0..0],
    }
}
