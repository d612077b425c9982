//! A file each read of which is reported.
ghost use Rattle.std.specs.Prelude.{◌≡◌, ℕ, List, IsTrue};

use sqlite::Files;
use sqlite_disk::{Disk, Tally};
use std::io;

/// Takes reports of how many bytes of a database file are asked for.
pub trait ReadingProgress: Drop {
    /// So many bytes more are asked for.
    fn read(&mut self, bytes: usize);

    /// Another one of the same file.
    fn again(&self) -> Self;
}

/// A disk that does what another one does. How many bytes each read asks for is reported, if there
/// is somebody to report it to.
#[derive(Drop)]
pub struct ReportingDisk<D: Disk, P: ReadingProgress> {
    disk: D,
    progress: Option<P>,
}

// Reports that so many bytes more are asked for.
fn report<P: ReadingProgress>(progress: &mut Option<P>, bytes: usize) {
    if let Some(progress) = progress {
        progress.read(bytes);
    }
}

impl<D: Disk, P: ReadingProgress> Disk for ReportingDisk<D, P> {
    ghost seen = { λ r. D.Disk.seen r.disk };

    ghost may_leave = { λ r. D.Disk.may_leave r.disk };

    ghost is_usable = { λ r. D.Disk.is_usable r.disk };

    ghost faults = { λ r. D.Disk.faults r.disk };

    ghost tally_of = { λ r. D.Disk.tally_of r.disk };

    ghost is_clean = { λ r. D.Disk.is_clean r.disk };

    ghost key_of = { λ r. D.Disk.key_of r.disk };

    ghost is_fair = { λ r. D.Disk.is_fair r.disk };

    ghost is_rotten = { λ r. D.Disk.is_rotten r.disk };

    ghost is_mixing = { λ r. D.Disk.is_mixing r.disk };

    ghost seen_may_stay = { λ r. D.Disk.seen_may_stay r.disk };

    ghost fair_if_clean = { λ r. D.Disk.fair_if_clean r.disk };

    // Whether a crash leaves each byte of a torn write old or new.
    fn mixes(&self) -> bool {
        self.disk.mixes()
    }

    // The key of the digests.
    fn key(&self) -> u64 {
        self.disk.key()
    }

    // What the failed calls met.
    fn tally(&self) -> Tally {
        self.disk.tally()
    }

    // Whether no sync has failed.
    fn may_be_used(&self) -> bool {
        self.disk.may_be_used()
    }

    // How many bytes there are.
    fn len(&mut self) -> io::Result<usize> {
        self.disk.len()
    }

    // Reports how many bytes are asked for, and reads them.
    fn read_at(&mut self, at: usize, buf: &mut [u8]) -> io::Result<()> {
        report(&mut self.progress, buf.len());
        self.disk.read_at(at, buf)
    }

    // The same of bytes whose digest is known.
    fn read_checked(&mut self, key: u64, want: u64, at: usize, buf: &mut [u8]) -> io::Result<()> {
        report(&mut self.progress, buf.len());
        self.disk.read_checked(key, want, at, buf)
    }

    // Writes bytes.
    fn write_at(&mut self, at: usize, bytes: &[u8]) -> io::Result<()> {
        self.disk.write_at(at, bytes)
    }

    // Makes the file that long.
    fn set_len(&mut self, len: usize) -> io::Result<()> {
        self.disk.set_len(len)
    }

    // Has what was written reach the device.
    fn sync(&mut self) -> io::Result<()> {
        self.disk.sync()
    }
}

/// Of a disk that reports, the kit's contract says what it says of the disk within.
pub fn reporting_disks<D: Disk, P: ReadingProgress>(disk: &ReportingDisk<D, P>)
    ensures seen { ⟦<ReportingDisk<D, P> as Disk>⟧.seen disk.now ≡ D.Disk.seen disk.now.disk }
    ensures leaves { (bytes : List ℕ) → D.Disk.may_leave disk.now.disk bytes
        → ⟦<ReportingDisk<D, P> as Disk>⟧.may_leave disk.now bytes }
    ensures alone { (bytes : List ℕ) → ⟦<ReportingDisk<D, P> as Disk>⟧.may_leave disk.now bytes
        → D.Disk.may_leave disk.now.disk bytes }
    ensures usable { ⟦<ReportingDisk<D, P> as Disk>⟧.is_usable disk.now
        ≡ D.Disk.is_usable disk.now.disk }
    ensures faults { ⟦<ReportingDisk<D, P> as Disk>⟧.faults disk.now ≡ D.Disk.faults disk.now.disk }
    ensures tally { ⟦<ReportingDisk<D, P> as Disk>⟧.tally_of disk.now
        ≡ D.Disk.tally_of disk.now.disk }
    ensures clean { ⟦<ReportingDisk<D, P> as Disk>⟧.is_clean disk.now
        ≡ D.Disk.is_clean disk.now.disk }
    ensures key { ⟦<ReportingDisk<D, P> as Disk>⟧.key_of disk.now ≡ D.Disk.key_of disk.now.disk }
    ensures fair { ⟦<ReportingDisk<D, P> as Disk>⟧.is_fair disk.now
        ≡ D.Disk.is_fair disk.now.disk }
    ensures rotten { ⟦<ReportingDisk<D, P> as Disk>⟧.is_rotten disk.now
        ≡ D.Disk.is_rotten disk.now.disk }
    ensures mixing { ⟦<ReportingDisk<D, P> as Disk>⟧.is_mixing disk.now
        ≡ D.Disk.is_mixing disk.now.disk }
{}

// The same files: what is read of the database is reported, and what is read of the log is not.
pub(crate) fn with_reports<D: Disk + Drop, P: ReadingProgress>(
    files: Files<D>,
    progress: P,
) -> Files<ReportingDisk<D, P>>
    requires log { IsTrue (D.Disk.is_usable files.log) }
    requires db { IsTrue (D.Disk.is_usable files.db) }
    ensures same_log { result.log.disk ≡ files.log }
    ensures same_db { result.db.disk ≡ files.db }
    ensures log { IsTrue (⟦<ReportingDisk<D, P> as Disk>⟧.is_usable result.log) }
    ensures db { IsTrue (⟦<ReportingDisk<D, P> as Disk>⟧.is_usable result.db) }
{
    let Files { log, db } = files;
    Files {
        log: ReportingDisk {
            disk: log,
            progress: None,
        },
        db: ReportingDisk {
            disk: db,
            progress: Some(progress),
        },
    }
}
