// The laws of disks. Each law is the contract of a function that does nothing at run time.

ghost use Rattle.std.specs.Prelude.{◌≡◌, ◌≤◌, ◌*◌, ◌++◌, ◌↔◌, ℕ, List, length, take, All, AllPairs};
ghost use Rattle.adf_partitions.specs.Disks.{FirstDiskFault, HasListOrFault, IsDisk};
ghost use Rattle.adf_partitions.specs.Searches.{AreReadable};
ghost use Rattle.adf_partitions.specs.{Tables.HasNoTables, Tables.IsTables, declared.fault.DiskFault.DiskFault};
ghost use Rattle.adf_partitions.specs.{declared.partition.Partition.Partition, declared.tables.Tables.Tables};
ghost use Rattle.adf_partitions.specs.Volumes.{AreSeparate, VolumeLiesWell, VolumesAreApart};
ghost use Rattle.adf_partitions.specs.declared.layout.TheConstants.{MOST_TABLES, RDSK_BLOCKS};

/// A disk has at most one rigid disk block, and at most one list of partitions.
pub fn one_disk()
    ensures tables { (bytes : List ℕ) (t u : Tables) → IsTables bytes t → IsTables bytes u → t ≡ u }
    ensures disk { (bytes : List ℕ) (n : ℕ) (t u : Tables) (ps qs : List Partition) → IsDisk bytes n t ps
        → IsDisk bytes n u qs → (t ≡ u) × (ps ≡ qs) }
{}

/// A disk with a fault of its tables has none, and one with a first fault has no list of partitions.
pub fn no_fault_on_a_disk()
    ensures tables { (bytes : List ℕ) (t : Tables) (f : DiskFault) → HasNoTables bytes f → IsTables bytes t
        → ⊥ }
    ensures disk { (bytes : List ℕ) (n : ℕ) (t : Tables) (ps : List Partition) (f : DiskFault)
        → FirstDiskFault bytes n f → IsDisk bytes n t ps → ⊥ }
{}

/// A disk has at most one first fault.
pub fn one_disk_fault()
    ensures { (bytes : List ℕ) (n : ℕ) (f g : DiskFault) → FirstDiskFault bytes n f → FirstDiskFault bytes n g → f ≡ g }
{}

/// Every disk has a list of partitions or a first fault.
pub fn some_disk()
    ensures { (bytes : List ℕ) (n : ℕ) → HasListOrFault bytes n }
{}

/// The partitions that can be read are at most 1,024, each in a block of its own, and their volumes lie within the disk and
/// apart.
pub fn readable_are_separate()
    ensures { (bytes : List ℕ) (n : ℕ) (ps : List Partition) → AreReadable bytes n ps → AreSeparate n ps }
{}

/// A disk has one list of partitions that can be read. If its tables have no fault these are all of its list.
pub fn one_reading()
    ensures one { (bytes : List ℕ) (n : ℕ) (ps qs : List Partition) → AreReadable bytes n ps
        → AreReadable bytes n qs → ps ≡ qs }
    ensures whole { (bytes : List ℕ) (n : ℕ) (t : Tables) (ps : List Partition) → IsDisk bytes n t ps
        → AreReadable bytes n ps }
{}

/// The first bytes of a disk are enough for its tables if they hold the blocks 0 to 15, and for its partitions if they hold all
/// of the list: what follows them changes nothing.
pub fn tables_are_enough()
    ensures tables { (bytes rest : List ℕ) (t : Tables) → RDSK_BLOCKS * 512 ≤ length bytes
        → IsTables bytes t ↔ IsTables (bytes ++ rest) t }
    ensures none { (bytes rest : List ℕ) (f : DiskFault) → RDSK_BLOCKS * 512 ≤ length bytes
        → HasNoTables bytes f ↔ HasNoTables (bytes ++ rest) f }
    ensures disk { (bytes rest : List ℕ) (n : ℕ) (t : Tables) (ps : List Partition) → IsDisk bytes n t ps
        → IsDisk (bytes ++ rest) n t ps }
{}

/// The blocks below 65,536 are enough, or all blocks of a disk that has fewer: what follows them changes nothing that is read of
/// the disk.
#[tactic(auto, using(crate::proofs::FirstBlocks::first_readable))]
pub fn first_blocks_are_enough()
    ensures disk { (bytes : List ℕ) (n : ℕ) (t : Tables) (ps : List Partition)
        → IsDisk (take (MOST_TABLES * 512) bytes) n t ps ↔ IsDisk bytes n t ps }
    ensures fault { (bytes : List ℕ) (n : ℕ) (f : DiskFault)
        → FirstDiskFault (take (MOST_TABLES * 512) bytes) n f ↔ FirstDiskFault bytes n f }
    ensures readable { (bytes : List ℕ) (n : ℕ) (ps : List Partition)
        → AreReadable (take (MOST_TABLES * 512) bytes) n ps ↔ AreReadable bytes n ps }
{}

/// The volumes of a disk lie within it, beside its tables and apart from each other.
#[tactic(auto, using(crate::proofs::VolumesApart::volumes_lie_well))]
pub fn volumes_lie_apart()
    ensures each { (bytes : List ℕ) (n : ℕ) (t : Tables) (ps : List Partition) → IsDisk bytes n t ps
        → All (VolumeLiesWell n t) ps }
    ensures apart { (bytes : List ℕ) (n : ℕ) (t : Tables) (ps : List Partition) → IsDisk bytes n t ps
        → AllPairs VolumesAreApart ps }
{}
