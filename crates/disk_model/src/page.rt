// Pages that are filled.

ghost use Rattle.std.specs.Prelude.{◌≡◌, ◌≤◌, length};
ghost use Rattle.store_model.specs.Disk.{page_bytes, page_of};

use crate::Page;
use blob_base::PAGE_BYTES;

/// The page that begins with these bytes, and has zeros behind them.
pub fn filled(bytes: &[u8]) -> Page
    requires { length bytes.now ≤ page_bytes }
    ensures { result ≡ page_of bytes.now }
{
    let mut page = [0; PAGE_BYTES];
    page[..bytes.len()].copy_from_slice(bytes);
    page
}
