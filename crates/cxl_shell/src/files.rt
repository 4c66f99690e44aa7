//! What the statuses of runs say of the files that they read.

ghost use Rattle.std.specs.Prelude.{◌≡◌, ◌≢◌, ℕ, ◌<◌, ◌≤◌, ◌⊎◌, Some, List, ◌∷◌, [], length, Contains};
ghost use Rattle.cxl_table.specs.CedtFields.{CedtFields};
ghost use Rattle.cxl_cedt.specs.Table.{HasTable};
ghost use Rattle.cxl_cedt.specs.declared.fault.CedtFault.{CedtFault};
ghost use Rattle.cxl_commands.specs.Stopped.{IsUnwritten, IsStopped};
ghost use Rattle.cxl_commands.specs.Form.{own_files, table_file, topology_file, image_file};
ghost use Rattle.cxl_commands.specs.Readings.{IsTreeFile, IsFileOfImage, KnowsTable, KnowsTree};
ghost use Rattle.cxl_enc.specs.Limits.{file_limit};
ghost use Rattle.cxl_image.specs.File.{HasImage};
ghost use Rattle.cxl_image.specs.declared.fault.ImageFault.{ImageFault};
ghost use Rattle.cxl_inputs.specs.File.{AsksForSome, HasFailedFetch};
ghost use Rattle.cxl_inputs.specs.Image.{IsFaultyImage, IsFaultyImageFile};
ghost use Rattle.cxl_inputs.specs.Table.{IsFaulty, IsFaultyFile};
ghost use Rattle.cxl_inputs.specs.Topology.{IsFaultyTree, IsFaultyTreeFile, HasTree};
ghost use Rattle.cxl_io.specs.Fetch.{AsksFor, IsTooLarge};
ghost use Rattle.cxl_io.specs.Told.{Absent, Bytes};
ghost use Rattle.cxl_shell.specs.Run.{EachRun};
ghost use Rattle.cxl_topo.specs.Tree.{Tree};
ghost use Rattle.cxl_topofile.specs.declared.fault.TopoFault.{TopoFault};

use cxl_cedt::{CedtFault, one_reading};
use cxl_image::{ImageFault, one_image_reading};
use cxl_inputs::Status;
use cxl_topofile::{TopoFault, one_topology_reading};

/// Laws of each run: what its statuses say of its files.
pub fn file_statuses()
    // The files are asked for in the order of the words, and no other file is: the first of them, and
    // all of them where a command has its answer or its one file comes to something.
    ensures asked { EachRun (λ form old new before after status. AsksForSome (own_files form) old.files new.files) }
    ensures all_asked { EachRun (λ form old new before after status. (status ≡ Status.Done) ⊎ (status ≡ Status.Refused)
        → AsksFor old.files new.files (own_files form)) }
    ensures one_asked { EachRun (λ form old new before after status. (file : List ℕ) → own_files form ≡ file ∷ []
        → status ≢ Status.Memory → AsksFor old.files new.files (file ∷ [])) }

    // Status 2 comes only where asking for one of the command's own files failed. A first file that is
    // known not to be there gives it, unless that is not written.
    ensures fetch_fault { EachRun (λ form old new before after status. status ≡ Status.FetchFault
        → HasFailedFetch (own_files form) old.files new.files) }
    ensures absent { EachRun (λ form old new before after status. (file : List ℕ) (others : List (List ℕ))
        → own_files form ≡ file ∷ others → old.files.told file ≡ Absent
        → (status ≡ Status.FetchFault) ⊎ IsUnwritten status old.out new.out) }

    // Status 12 comes exactly where a file has more than 1,048,576 bytes, unless the run stops before.
    ensures too_large { EachRun (λ form old new before after status. status ≡ Status.TooLarge
        → (file : List ℕ) × Contains (own_files form) file × IsTooLarge (old.files.told file)) }
    ensures only_too_large { EachRun (λ form old new before after status. (file bytes : List ℕ) (others : List (List ℕ))
        → own_files form ≡ file ∷ others → old.files.told file ≡ Bytes bytes → file_limit < length bytes
        → (status ≡ Status.TooLarge) ⊎ IsStopped status old new) }
{
    one_reading();
}

/// Laws of each run: what its statuses say of the table that it reads.
pub fn table_statuses()
    // Status 3 comes exactly where the file's bytes spell no table, with their first fault, unless the
    // run stops before.
    ensures bad_table { EachRun (λ form old new before after status. (fault : CedtFault) → status ≡ Status.BadTable fault
        → (file : List ℕ) × (table_file form ≡ Some file) × IsFaultyFile (old.files.told file) fault) }
    ensures only_bad_table { EachRun (λ form old new before after status. (file bytes : List ℕ) (fault : CedtFault)
        → table_file form ≡ Some file → old.files.told file ≡ Bytes bytes → IsFaulty bytes fault
        → (status ≡ Status.BadTable fault) ⊎ IsStopped status old new) }
    ensures no_table { EachRun (λ form old new before after status. (file bytes : List ℕ)
        → table_file form ≡ Some file → old.files.told file ≡ Bytes bytes
        → length bytes ≤ file_limit → ¬ (HasTable bytes)
        → ((fault : CedtFault) × (status ≡ Status.BadTable fault)) ⊎ IsStopped status old new) }
    // Bytes with a fault spell no table.
    ensures not_both { (bytes : List ℕ) (fault : CedtFault) → IsFaulty bytes fault → ¬ (HasTable bytes) }

    // Want of memory is status 9 alone.
    ensures own_memory { EachRun (λ form old new before after status. status ≢ Status.BadTable CedtFault.Memory) }
{
    // Bytes have one reading, or one first fault.
    one_reading();
}

/// Laws of each run whose table is known: what its statuses say of the topology that it reads behind it.
pub fn topology_statuses()
    // Status 4 comes exactly where the file's bytes stand for no tree, with their first fault, unless the
    // run stops before.
    ensures bad_topology { EachRun (λ form old new before after status. (fault : TopoFault) → status ≡ Status.BadTopo fault
        → (file : List ℕ) × (topology_file form ≡ Some file) × IsFaultyTreeFile (old.files.told file) fault) }
    ensures only_bad_topology { EachRun (λ form old new before after status.
        (table : CedtFields) (bytes : List ℕ) (fault : TopoFault) → KnowsTable form old.files.told table
        → IsTreeFile form old.files.told bytes → IsFaultyTree bytes fault
        → (status ≡ Status.BadTopo fault) ⊎ IsStopped status old new) }
    ensures no_topology { EachRun (λ form old new before after status.
        (table : CedtFields) (bytes : List ℕ) → KnowsTable form old.files.told table
        → IsTreeFile form old.files.told bytes → length bytes ≤ file_limit → ¬ (HasTree bytes)
        → ((fault : TopoFault) × (status ≡ Status.BadTopo fault)) ⊎ IsStopped status old new) }
    // Bytes with a fault stand for no tree.
    ensures not_both { (bytes : List ℕ) (fault : TopoFault) → IsFaultyTree bytes fault → ¬ (HasTree bytes) }

    // A file that is known not to be there gives status 2, and one that is too large status 12.
    ensures absent { EachRun (λ form old new before after status. (table : CedtFields) (file : List ℕ)
        → KnowsTable form old.files.told table → topology_file form ≡ Some file
        → old.files.told file ≡ Absent
        → (status ≡ Status.FetchFault) ⊎ IsUnwritten status old.out new.out) }
    ensures only_too_large { EachRun (λ form old new before after status. (table : CedtFields) (bytes : List ℕ)
        → KnowsTable form old.files.told table → IsTreeFile form old.files.told bytes
        → file_limit < length bytes → (status ≡ Status.TooLarge) ⊎ IsStopped status old new) }

    // Want of memory is status 9 alone.
    ensures own_memory { EachRun (λ form old new before after status. status ≢ Status.BadTopo TopoFault.Memory) }
{
    one_reading();
    one_topology_reading();
}

/// Laws of each run whose table and topology are known: what its statuses say of the image that it reads
/// behind them.
pub fn image_statuses()
    // Status 10 comes exactly where the file's bytes are no file of an image over the topology, with their
    // first fault, unless the run stops before.
    ensures bad_image { EachRun (λ form old new before after status. (tree : Tree) (fault : ImageFault)
        → KnowsTree form old.files.told tree → status ≡ Status.BadImage fault
        → (file : List ℕ) × (image_file form ≡ Some file)
        × IsFaultyImageFile (old.files.told file) tree.nodes fault) }
    ensures only_bad_image { EachRun (λ form old new before after status.
        (table : CedtFields) (tree : Tree) (bytes : List ℕ) (fault : ImageFault)
        → KnowsTable form old.files.told table → KnowsTree form old.files.told tree
        → IsFileOfImage form old.files.told bytes → IsFaultyImage bytes tree.nodes fault
        → (status ≡ Status.BadImage fault) ⊎ IsStopped status old new) }
    ensures no_image { EachRun (λ form old new before after status.
        (table : CedtFields) (tree : Tree) (bytes : List ℕ)
        → KnowsTable form old.files.told table → KnowsTree form old.files.told tree
        → IsFileOfImage form old.files.told bytes → length bytes ≤ file_limit
        → ¬ (HasImage bytes tree.nodes)
        → ((fault : ImageFault) × (status ≡ Status.BadImage fault)) ⊎ IsStopped status old new) }

    // A file that is known not to be there gives status 2, and one that is too large status 12.
    ensures absent { EachRun (λ form old new before after status. (table : CedtFields) (tree : Tree) (file : List ℕ)
        → KnowsTable form old.files.told table → KnowsTree form old.files.told tree
        → image_file form ≡ Some file → old.files.told file ≡ Absent
        → (status ≡ Status.FetchFault) ⊎ IsUnwritten status old.out new.out) }
    ensures only_too_large { EachRun (λ form old new before after status.
        (table : CedtFields) (tree : Tree) (bytes : List ℕ)
        → KnowsTable form old.files.told table → KnowsTree form old.files.told tree
        → IsFileOfImage form old.files.told bytes → file_limit < length bytes
        → (status ≡ Status.TooLarge) ⊎ IsStopped status old new) }

    // Want of memory is status 9 alone.
    ensures own_memory { EachRun (λ form old new before after status. status ≢ Status.BadImage ImageFault.Memory) }
{
    one_reading();
    one_topology_reading();
    one_image_reading();
}
