//! What the store keeps in memory, and how long its log grows, by the size of a file's pages.
ghost use Rattle.std.specs.Prelude.{◌≡◌, ◌≤◌, ◌*◌};
ghost use Rattle.sqlite_wal.specs.PageSize.{bytes_of};

use sqlite::Options;
use sqlite_wal::PageSize;

// The most pages that were read, and the most bytes of them, that stay in memory.
const PAGES_READ: usize = 2_000;

const BYTES_READ: usize = 8_192_000;

// The bytes of pages of a transaction that stay in memory before they go to the log.
const BYTES_WRITTEN: usize = 8_192_000;

// The bytes of pages in the log from which on it is copied into the file.
const BYTES_IN_LOG: usize = 4_096_000;

// The options of a file with pages of this size.
pub(crate) fn options(size: PageSize, seed: u64) -> Options
    ensures pages { result.cache_pages ≤ PAGES_READ }
    ensures read { result.cache_pages * bytes_of size ≤ BYTES_READ }
    ensures written { result.spill_pages * bytes_of size ≤ BYTES_WRITTEN }
    ensures log { result.checkpoint_frames * bytes_of size ≤ BYTES_IN_LOG }
    ensures seed { result.seed ≡ seed }
{
    let bytes = size.bytes();
    Options {
        cache_pages: PAGES_READ.min(BYTES_READ / bytes),
        spill_pages: BYTES_WRITTEN / bytes,
        checkpoint_frames: BYTES_IN_LOG / bytes,
        seed,
    }
}

// Those of a file that is made, which has one page.
pub(crate) fn first_options(seed: u64) -> Options
    ensures pages { result.cache_pages ≡ 1 }
    ensures seed { result.seed ≡ seed }
{
    let mut options = Options::new(seed);
    options.cache_pages = 1;
    options
}
