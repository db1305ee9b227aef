// Lists that take no more memory than their items need.
ghost use Rattle.std.specs.Prelude.{◌≡◌};

use sqlite_items::Items;

/// The most items that are moved to another block.
const FEW: usize = 16;

/// The items of a list. The code asks for a block of their length; the contract sees the items alone, not the block. A
/// few items are moved to a new one where there is memory for it, since a block that is shrunk leaves a rest behind that may
/// be too small for what comes next.
pub fn fitted<T: Drop>(mut items: Vec<T>) -> Items<T>
    ensures { result ≡ items.items }
{
    if items.len() > FEW {
        items.shrink_to_fit();
        return Items::from_vec(items);
    }
    if let Ok(mut exact) = Vec::with_capacity(*items.allocator(), items.len()) {
        if exact.append(&mut items).is_ok() {
            return Items::from_vec(exact);
        }
    }
    Items::from_vec(items)
}
