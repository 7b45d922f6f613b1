use bgp_types::{Prefix, Table};

/// Returns the longest prefix of a table that covers an address, by a walk over all of them.
pub fn longest<T: Table<u32>>(table: &T, address: u32) -> Option<Prefix> {
    let host = Prefix::new(address, 32)?;
    let mut longest = None;
    let mut len = 0;
    let mut at = None;
    for _ in 0..table.len() {
        let Some(prefix) = table.next_after(at) else {
            return longest;
        };
        let bits = prefix.len();
        if bits >= len && prefix.covers(&host) {
            longest = Some(prefix);
            len = bits;
        }
        at = Some(prefix);
    }
    longest
}
