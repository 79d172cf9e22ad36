//! Cases of each request, evaluated on small trees.

ghost use Rattle.std.specs.Prelude.{◌≡◌, [], ◌∷◌, ◌++◌, true, false, map, drop, replicate, codes, Some, None};
ghost use Rattle.sf_reply.specs.declared.reply.Reply.TheVariants as reply;
ghost use Rattle.sf_reply.specs.declared.reply.StatusCode.TheVariants.{Success, EndOfFile, NoSuchFile, PermissionDenied, Failure};
ghost use Rattle.sf_field.specs.declared.operation.PathOp.TheVariants.{Stat, SetStat, Mkdir, Rmdir, Remove, OpenDir, Open};
ghost use Rattle.sf_field.specs.declared.operation.PairOp.TheVariants.{Rename, PosixRename, Link};
ghost use Rattle.sf_field.specs.declared.operation.HandleOp.TheVariants.{Close, FStat, FSetStat, Read, ReadDir};
ghost use Rattle.sf_call.specs.declared.request.Request.TheVariants.{OnPath, OnPaths, ByHandle, Write};
ghost use Rattle.sf_call.specs.declared.record.Record.TheVariants.{Did};
ghost use Rattle.sf_call.specs.Attributes.Object.{Directory};
ghost use Rattle.sf_call.specs.Tree.{empty_tree};
ghost use Rattle.sf_call.specs.Calls.{apply};
ghost use Rattle.sf_call.specs.Histories.{IsLegal, replay};
ghost use Rattle.sf_laws.specs.Examples.{a, b, no_attrs, all_attrs, metadata, tree_with, touched_root, with_directory, tree_with_file, call, refuses_by, tells_attrs, history, replies, replies_of_another, tree_after, ok, failed, absent, sized, flags, exclusively, truncating, f, g, new_file, of_five, renames, linking, file_attrs, numbered, up_to_32, names_in_reply, by_owner, at_times};
ghost use Rattle.sf_path.specs.Names.{slash};
ghost use Rattle.sf_path.specs.Normal.{fault_of};
ghost use Rattle.sf_path.specs.declared.fault.PathFault.TheVariants.{TooLong, NameTooLong};
ghost use Rattle.sf_field.specs.Fields.{be32};
ghost use Rattle.sf_wire.specs.declared.cutting.Cut.TheVariants as cut;
ghost use Rattle.sf_wire.specs.declared.cutting.BadCut.TheVariants as bad_cut;
ghost use Rattle.sf_wire.specs.Packets.{IsCut};
ghost use Rattle.sf_call.specs.Listings.{entry_of};
ghost use Rattle.sf_call.specs.Attributes.Object.{File};

/// MKDIR.
pub fn mkdir_cases()
    ensures made { apply empty_tree 1 7 100 (OnPath (Mkdir no_attrs) (a ∷ []))
        ≡ record { reply = reply.Status Success; tree = with_directory } }
    ensures asked { apply empty_tree 1 7 100
        (OnPath (Mkdir (all_attrs 9 (by_owner 5 6) 0o177777 (at_times 1 2))) (a ∷ []))
        ≡ record {
          reply = reply.Status Success;
          tree = tree_with (Directory (metadata 5 6 0o7777 1 2));
        } }
    ensures root { call with_directory (OnPath (Mkdir no_attrs) [])
        ≡ refuses_by with_directory Failure }
    ensures present { call with_directory (OnPath (Mkdir no_attrs) (a ∷ []))
        ≡ refuses_by with_directory Failure }
    ensures below_file { call tree_with_file (OnPath (Mkdir no_attrs) (a ∷ b ∷ []))
        ≡ refuses_by tree_with_file NoSuchFile }
    ensures below_nothing { call with_directory (OnPath (Mkdir no_attrs) (b ∷ a ∷ []))
        ≡ refuses_by with_directory NoSuchFile }
{}

/// STAT.
pub fn stat_cases()
    ensures directory { call with_directory (OnPath Stat (a ∷ []))
        ≡ tells_attrs with_directory (all_attrs 0 (by_owner 0 0) 0o40755 (at_times 100 100)) }
    ensures file { call tree_with_file (OnPath Stat (a ∷ []))
        ≡ tells_attrs tree_with_file (all_attrs 3 (by_owner 5 6) 0o100644 (at_times 100 200)) }
    ensures absent { call with_directory (OnPath Stat (b ∷ []))
        ≡ refuses_by with_directory NoSuchFile }
    ensures below_file { call tree_with_file (OnPath Stat (a ∷ b ∷ []))
        ≡ refuses_by tree_with_file NoSuchFile }
{}

/// Histories.
pub fn history_cases()
    ensures legal { IsLegal history }
    ensures replayed { replay history ≡ with_directory }
{}

/// Files through handles, at the timestamp 100.
pub fn file_cases()
    ensures written { replies (new_file f ∷ Write 1 5 (codes "x") ∷ ByHandle (Read 0 261121) 1
        ∷ ByHandle (Read 6 1) 1 ∷ ByHandle (FSetStat (sized 7)) 1 ∷ ByHandle (FSetStat (sized 6)) 1
        ∷ ByHandle FStat 1 ∷ OnPath Stat (f ∷ []) ∷ [])
        ≡ reply.Handle 1 ∷ ok ∷ reply.Data (0 ∷ 0 ∷ 0 ∷ 0 ∷ 0 ∷ 120 ∷ []) ∷ reply.Status EndOfFile
        ∷ ok ∷ ok ∷ reply.Attrs (file_attrs 6) ∷ reply.Attrs (file_attrs 6) ∷ [] }
    ensures listed { replies (new_file f ∷ Write 1 5 (codes "x") ∷ OnPath OpenDir []
        ∷ ByHandle ReadDir 3 ∷ ByHandle ReadDir 3 ∷ [])
        ≡ reply.Handle 1 ∷ ok ∷ reply.Handle 3 ∷ reply.Names
        (entry_of f 1 (File (metadata 0 0 0o644 100 100) (0 ∷ 0 ∷ 0 ∷ 0 ∷ 0 ∷ 120 ∷ [])) ∷ [])
        ∷ reply.Status EndOfFile ∷ [] }
    ensures past_limit { replies (new_file f ∷ Write 1 1099511627776 (codes "x")
        ∷ Write 1 18446744073709551615 (codes "x") ∷ OnPath (SetStat (sized 1099511627777)) (f ∷ [])
        ∷ OnPath (SetStat (sized 18446744073709551615)) (f ∷ [])
        ∷ ByHandle (FSetStat (sized 18446744073709551615)) 1
        ∷ ByHandle (Read 18446744073709551615 4294967295) 1 ∷ OnPath Stat (f ∷ []) ∷ [])
        ≡ reply.Handle 1 ∷ reply.Status Failure ∷ reply.Status Failure ∷ reply.Status Failure
        ∷ reply.Status Failure ∷ reply.Status Failure ∷ reply.Status EndOfFile
        ∷ reply.Attrs (file_attrs 0) ∷ [] }
    ensures denied { replies (OnPath (Open (flags true false false true) no_attrs) (f ∷ [])
        ∷ Write 1 0 (codes "x") ∷ ByHandle (FSetStat (sized 3)) 1 ∷ ByHandle FStat 1 ∷ [])
        ≡ reply.Handle 1 ∷ reply.Status PermissionDenied ∷ reply.Status PermissionDenied
        ∷ reply.Attrs (file_attrs 0) ∷ [] }
    ensures unlinked { replies (new_file f ∷ Write 1 0 (codes "abc") ∷ OnPath Remove (f ∷ [])
        ∷ ByHandle (Read 0 10) 1 ∷ OnPath Stat (f ∷ []) ∷ ByHandle Close 1 ∷ ByHandle (Read 0 10) 1
        ∷ ByHandle Close 1 ∷ [])
        ≡ reply.Handle 1 ∷ ok ∷ ok ∷ reply.Data (codes "abc") ∷ reply.Status NoSuchFile ∷ ok
        ∷ reply.Status Failure ∷ reply.Status Failure ∷ [] }
    ensures appended { replies (OnPath (Open (flags true true true true) no_attrs) (f ∷ [])
        ∷ Write 1 7 (codes "ab") ∷ Write 1 0 (codes "c") ∷ ByHandle (Read 0 10) 1 ∷ [])
        ≡ reply.Handle 1 ∷ ok ∷ ok ∷ reply.Data (codes "abc") ∷ [] }
    ensures gap_of_zeros { replies (new_file f ∷ Write 1 0 (codes "abc")
        ∷ ByHandle (FSetStat (sized 0)) 1 ∷ Write 1 3 (codes "x") ∷ ByHandle (Read 0 10) 1 ∷ [])
        ≡ reply.Handle 1 ∷ ok ∷ ok ∷ ok ∷ reply.Data (0 ∷ 0 ∷ 0 ∷ 120 ∷ []) ∷ [] }
{}

/// 33 files are listed while some are removed.
pub fn listing_cases()
    ensures { map names_in_reply (drop 33 (replies
        (map (λ k. new_file (numbered k)) (up_to_32 ++ 33 ∷ [])
        ++ OnPath OpenDir [] ∷ ByHandle ReadDir 34 ∷ OnPath Remove (numbered 1 ∷ [])
        ∷ ByHandle ReadDir 34 ∷ OnPath Remove (numbered 33 ∷ []) ∷ ByHandle ReadDir 34 ∷ [])))
        ≡ [] ∷ map numbered up_to_32 ∷ [] ∷ (numbered 33 ∷ []) ∷ [] ∷ [] ∷ [] }
{}

/// RMDIR.
pub fn rmdir_cases()
    ensures gone { call with_directory (OnPath Rmdir (a ∷ []))
        ≡ record { reply = ok; tree = touched_root } }
    ensures root { call with_directory (OnPath Rmdir []) ≡ refuses_by with_directory Failure }
    ensures absent { call with_directory (OnPath Rmdir (b ∷ []))
        ≡ refuses_by with_directory NoSuchFile }
    ensures below_file { call tree_with_file (OnPath Rmdir (a ∷ b ∷ []))
        ≡ refuses_by tree_with_file NoSuchFile }
    ensures file { call tree_with_file (OnPath Rmdir (a ∷ [])) ≡ refuses_by tree_with_file Failure }
    ensures full { replies (OnPath (Mkdir no_attrs) (a ∷ []) ∷ OnPath (Mkdir no_attrs) (a ∷ b ∷ [])
        ∷ OnPath Rmdir (a ∷ []) ∷ OnPath Rmdir (a ∷ b ∷ []) ∷ OnPath Rmdir (a ∷ []) ∷ [])
        ≡ ok ∷ ok ∷ reply.Status Failure ∷ ok ∷ ok ∷ [] }
    // An open directory that was removed lists nothing.
    ensures open { replies (OnPath (Mkdir no_attrs) (a ∷ []) ∷ OnPath OpenDir (a ∷ [])
        ∷ OnPath Rmdir (a ∷ []) ∷ ByHandle ReadDir 2 ∷ ByHandle Close 2 ∷ [])
        ≡ ok ∷ reply.Handle 2 ∷ ok ∷ reply.Status EndOfFile ∷ ok ∷ [] }
{}

/// OPEN by its flags and attributes, at the timestamp 100.
pub fn open_cases()
    ensures absent { replies (OnPath (Open (flags true true false false) no_attrs) (f ∷ []) ∷ [])
        ≡ reply.Status NoSuchFile ∷ [] }
    ensures directory { replies (OnPath (Mkdir no_attrs) (a ∷ [])
        ∷ OnPath (Open (flags true false false true) no_attrs) (a ∷ []) ∷ [])
        ≡ ok ∷ reply.Status Failure ∷ [] }
    // EXCL has an effect only with CREAT.
    ensures exclusive { replies (map (λ marks. OnPath (Open marks no_attrs) (f ∷ []))
        (exclusively (flags true true false true) ∷ exclusively (flags true true false true)
        ∷ exclusively (flags true true false false) ∷ flags true true false true ∷ []))
        ≡ reply.Handle 1 ∷ reply.Status Failure ∷ reply.Handle 3 ∷ reply.Handle 4 ∷ [] }
    // TRUNC has an effect only with WRITE.
    ensures truncated { replies (new_file f ∷ Write 1 0 (codes "abc")
        ∷ OnPath (Open (truncating (flags true false false false)) no_attrs) (f ∷ [])
        ∷ ByHandle FStat 1
        ∷ OnPath (Open (truncating (flags false true false false)) no_attrs) (f ∷ [])
        ∷ ByHandle FStat 1 ∷ ByHandle (Read 0 10) 1 ∷ [])
        ≡ reply.Handle 1 ∷ ok ∷ reply.Handle 3 ∷ reply.Attrs (file_attrs 3) ∷ reply.Handle 5
        ∷ reply.Attrs (file_attrs 0) ∷ reply.Status EndOfFile ∷ [] }
    // Attributes apply to a new file alone, and its size is 0.
    ensures attributes { replies (OnPath (Open (flags true true false true)
        (all_attrs 9 (by_owner 5 6) 0o177777 (at_times 1 2))) (f ∷ [])
        ∷ OnPath (Open (flags true true false true)
        (all_attrs 4 (by_owner 7 8) 0o600 (at_times 3 4))) (f ∷ []) ∷ ByHandle FStat 1 ∷ [])
        ≡ reply.Handle 1 ∷ reply.Handle 2
        ∷ reply.Attrs (all_attrs 0 (by_owner 5 6) 0o107777 (at_times 1 2)) ∷ [] }
    // A handle opened with neither READ nor WRITE is readable.
    ensures no_marks { replies (new_file f ∷ Write 1 0 (codes "abc")
        ∷ OnPath (Open (flags false false false false) no_attrs) (f ∷ []) ∷ ByHandle (Read 0 10) 3
        ∷ Write 3 0 (codes "x") ∷ [])
        ≡ reply.Handle 1 ∷ ok ∷ reply.Handle 3 ∷ reply.Data (codes "abc")
        ∷ reply.Status PermissionDenied ∷ [] }
{}

/// Handles: their sessions, and their limit.
pub fn handle_cases()
    // A handle is unknown in other sessions.
    ensures another { replies_of_another
        (tree_after empty_tree 1 (new_file f ∷ OnPath OpenDir [] ∷ []))
        (ByHandle FStat 1 ∷ ByHandle (FSetStat no_attrs) 1 ∷ ByHandle (Read 0 10) 1
        ∷ Write 1 0 [] ∷ ByHandle ReadDir 2 ∷ ByHandle Close 1 ∷ ByHandle Close 2 ∷ [])
        ≡ replicate 7 (reply.Status Failure) }
    // A session may have 128 open handles. The next OPEN fails until one is closed. Another session
    // has its own limit.
    ensures most { drop 127 (replies (replicate 128 (OnPath OpenDir [])
        ++ OnPath OpenDir [] ∷ new_file f ∷ ByHandle Close 1 ∷ OnPath OpenDir [] ∷ []))
        ≡ reply.Handle 128 ∷ reply.Status Failure ∷ reply.Status Failure ∷ ok ∷ reply.Handle 132
        ∷ [] }
    ensures most_of_each { replies_of_another
        (tree_after empty_tree 1 (replicate 128 (OnPath OpenDir []))) (OnPath OpenDir [] ∷ [])
        ≡ reply.Handle 1000 ∷ [] }
    // The root's attributes can't be set, neither by path nor by handle.
    ensures root { replies (OnPath OpenDir [] ∷ ByHandle (FSetStat no_attrs) 1
        ∷ OnPath (SetStat no_attrs) [] ∷ [])
        ≡ reply.Handle 1 ∷ reply.Status Failure ∷ reply.Status Failure ∷ [] }
    // A handle's number is never reused, and a closed one is unknown.
    ensures closed { replies (OnPath OpenDir [] ∷ ByHandle Close 1 ∷ ByHandle Close 1
        ∷ ByHandle ReadDir 1 ∷ OnPath OpenDir [] ∷ [])
        ≡ reply.Handle 1 ∷ ok ∷ reply.Status Failure ∷ reply.Status Failure ∷ reply.Handle 5 ∷ [] }
{}

/// Paths at their limits: a name of 255 bytes, and a path string of 4096.
pub fn path_cases()
    ensures longest_name { fault_of (replicate 255 97) ≡ None }
    ensures longer_name { fault_of (replicate 256 97) ≡ Some NameTooLong }
    ensures longest_text { fault_of (replicate 4096 slash) ≡ None }
    ensures longer_text { fault_of (replicate 4097 slash) ≡ Some TooLong }
{}

/// Packets at their limits: a length of 1, and one of 262144.
pub fn packet_cases()
    ensures none { IsCut (be32 0) (cut.Bad bad_cut.ZeroLength) }
    ensures shortest { IsCut (be32 1 ++ 7 ∷ []) (cut.Whole 5) }
    ensures longest { IsCut (be32 262144) cut.More }
    ensures longer { IsCut (be32 262145) (cut.Bad bad_cut.TooLong) }
{}

/// RENAME and the extension posix-rename, case by case.
pub fn rename_cases()
    ensures root { renames [] (a ∷ []) ++ renames (a ∷ []) [] ≡ replicate 4 failed }
    ensures absent { renames (a ∷ a ∷ []) (a ∷ a ∷ []) ++ renames (f ∷ a ∷ []) (b ∷ b ∷ [])
        ≡ replicate 4 absent }
    ensures same_path { renames (a ∷ []) (a ∷ []) ≡ failed ∷ ok ∷ [] }
    ensures inside { renames (a ∷ []) (a ∷ b ∷ []) ++ renames (a ∷ []) (a ∷ f ∷ f ∷ [])
        ≡ replicate 4 failed }
    ensures around { renames (a ∷ b ∷ []) (a ∷ []) ≡ replicate 2 failed }
    ensures bad_way { renames (b ∷ []) (f ∷ b ∷ []) ++ renames (f ∷ []) (b ∷ f ∷ f ∷ [])
        ≡ replicate 4 absent }
    ensures file_over_file { renames (f ∷ []) (g ∷ []) ≡ failed ∷ ok ∷ [] }
    ensures directory_over_empty_one { renames (a ∷ []) (b ∷ []) ≡ failed ∷ ok ∷ [] }
    ensures directory_over_full_one { renames (b ∷ []) (a ∷ []) ≡ replicate 2 failed }
    ensures directory_over_file { renames (b ∷ []) (f ∷ []) ≡ replicate 2 failed }
    ensures file_over_directory { renames (f ∷ []) (b ∷ []) ≡ replicate 2 failed }
    ensures to_free_path { renames (a ∷ []) (b ∷ a ∷ []) ++ renames (f ∷ []) (a ∷ f ∷ [])
        ≡ replicate 4 ok }
{}

/// The effects of a rename.
pub fn move_cases()
    ensures same_path { call with_directory (OnPaths PosixRename (a ∷ []) (a ∷ []))
        ≡ record { reply = ok; tree = with_directory } }
    ensures moved { call with_directory (OnPaths Rename (a ∷ []) (b ∷ []))
        ≡ record {
          reply = ok;
          tree = record {
            names = ([], 0) ∷ (b ∷ [], 7) ∷ [];
            objects = (0, Directory (metadata 0 0 0o755 0 300))
                ∷ (7, Directory (metadata 0 0 0o755 100 100)) ∷ [];
            handles = [];
          };
        } }
    // Paths below move too, and both parents' modification times are set.
    ensures below { (call of_five (OnPaths PosixRename (a ∷ []) (b ∷ []))).tree.names
        ≡ ([], 0) ∷ (b ∷ [], 1) ∷ (b ∷ b ∷ [], 2) ∷ (f ∷ [], 4) ∷ (g ∷ [], 5) ∷ [] }
    ensures parents { (call of_five (OnPaths Rename (a ∷ b ∷ []) (b ∷ a ∷ []))).tree.objects
        ≡ (0, Directory (metadata 0 0 0o755 0 100)) ∷ (1, Directory (metadata 0 0 0o755 100 300))
        ∷ (2, Directory (metadata 0 0 0o755 100 100)) ∷ (3, Directory (metadata 0 0 0o755 100 300))
        ∷ (4, File (metadata 0 0 0o644 100 100) []) ∷ (5, File (metadata 0 0 0o644 100 100) [])
        ∷ [] }
    // A replaced file and a moved one are still read through their handles.
    ensures replaced { replies (new_file f ∷ Write 1 0 (codes "abc") ∷ new_file a
        ∷ OnPaths PosixRename (a ∷ []) (f ∷ []) ∷ Write 3 0 (codes "x") ∷ ByHandle (Read 0 10) 1
        ∷ ByHandle (Read 0 10) 3 ∷ OnPath Stat (f ∷ []) ∷ OnPath Stat (a ∷ []) ∷ [])
        ≡ reply.Handle 1 ∷ ok ∷ reply.Handle 3 ∷ ok ∷ ok ∷ reply.Data (codes "abc")
        ∷ reply.Data (codes "x") ∷ reply.Attrs (file_attrs 1) ∷ absent ∷ [] }
    // An open directory lists its entries after a move.
    ensures listed { map names_in_reply (replies (OnPath (Mkdir no_attrs) (a ∷ [])
        ∷ OnPath (Mkdir no_attrs) (a ∷ f ∷ [])
        ∷ OnPath OpenDir (a ∷ []) ∷ OnPaths Rename (a ∷ []) (b ∷ []) ∷ ByHandle ReadDir 3 ∷ []))
        ≡ [] ∷ [] ∷ [] ∷ [] ∷ (f ∷ []) ∷ [] }
{}

/// Links: failures in the order of their checks, and effects.
pub fn link_cases()
    ensures root { linking [] (a ∷ f ∷ []) ∷ linking (f ∷ []) [] ∷ linking (a ∷ a ∷ []) [] ∷ []
        ≡ replicate 3 failed }
    ensures absent { linking (a ∷ a ∷ []) (b ∷ f ∷ []) ∷ linking (f ∷ a ∷ []) (b ∷ f ∷ [])
        ∷ linking (a ∷ a ∷ []) (a ∷ a ∷ []) ∷ linking (a ∷ a ∷ []) (g ∷ []) ∷ []
        ≡ replicate 4 absent }
    ensures directory { linking (a ∷ []) (b ∷ a ∷ []) ∷ linking (a ∷ []) (a ∷ f ∷ [])
        ∷ linking (a ∷ []) (f ∷ f ∷ []) ∷ [] ≡ replicate 3 failed }
    // The new path is below a file, below an absent path, or below the old path.
    ensures bad_way { linking (f ∷ []) (g ∷ f ∷ []) ∷ linking (f ∷ []) (b ∷ b ∷ f ∷ [])
        ∷ linking (f ∷ []) (f ∷ g ∷ []) ∷ [] ≡ replicate 3 absent }
    ensures present { linking (f ∷ []) (g ∷ []) ∷ linking (f ∷ []) (f ∷ [])
        ∷ linking (f ∷ []) (a ∷ []) ∷ [] ≡ replicate 3 failed }
    // The old path is below the new one.
    ensures around { replies (OnPath (Mkdir no_attrs) (a ∷ [])
        ∷ OnPath (Open (flags true true false true) no_attrs) (a ∷ f ∷ [])
        ∷ OnPaths Link (a ∷ f ∷ []) (a ∷ []) ∷ []) ≡ ok ∷ reply.Handle 2 ∷ failed ∷ [] }
    ensures made { (call of_five (OnPaths Link (f ∷ []) (a ∷ f ∷ []))).reply ≡ ok }
    ensures names { (call of_five (OnPaths Link (f ∷ []) (a ∷ f ∷ []))).tree.names
        ≡ ([], 0) ∷ (a ∷ [], 1) ∷ (a ∷ b ∷ [], 2) ∷ (a ∷ f ∷ [], 4) ∷ (b ∷ [], 3) ∷ (f ∷ [], 4)
        ∷ (g ∷ [], 5) ∷ [] }
    // Only the new path's parent changes.
    ensures objects { (call of_five (OnPaths Link (f ∷ []) (a ∷ f ∷ []))).tree.objects
        ≡ (0, Directory (metadata 0 0 0o755 0 100)) ∷ (1, Directory (metadata 0 0 0o755 100 300))
        ∷ (2, Directory (metadata 0 0 0o755 100 100)) ∷ (3, Directory (metadata 0 0 0o755 100 100))
        ∷ (4, File (metadata 0 0 0o644 100 100) []) ∷ (5, File (metadata 0 0 0o644 100 100) [])
        ∷ [] }
    // Changes through one name are visible through the other, which remains when the first is
    // removed.
    ensures shared { replies (new_file f ∷ OnPaths Link (f ∷ []) (g ∷ []) ∷ Write 1 0 (codes "abc")
        ∷ OnPath Stat (g ∷ []) ∷ OnPath (SetStat (sized 2)) (g ∷ []) ∷ ByHandle (Read 0 10) 1
        ∷ OnPath Remove (f ∷ []) ∷ ByHandle Close 1 ∷ OnPath Stat (g ∷ []) ∷ OnPath Remove (g ∷ [])
        ∷ OnPath Stat (g ∷ []) ∷ [])
        ≡ reply.Handle 1 ∷ ok ∷ ok ∷ reply.Attrs (file_attrs 3) ∷ ok ∷ reply.Data (codes "ab") ∷ ok
        ∷ ok ∷ reply.Attrs (file_attrs 2) ∷ ok ∷ absent ∷ [] }
    ensures listed { replies (new_file f ∷ OnPaths Link (f ∷ []) (g ∷ []) ∷ OnPath OpenDir []
        ∷ ByHandle ReadDir 3 ∷ OnPath Remove (f ∷ []) ∷ OnPath OpenDir [] ∷ ByHandle ReadDir 6 ∷ [])
        ≡ reply.Handle 1 ∷ ok ∷ reply.Handle 3 ∷ reply.Names
        (entry_of f 2 (File (metadata 0 0 0o644 100 100) [])
        ∷ entry_of g 2 (File (metadata 0 0 0o644 100 100) []) ∷ [])
        ∷ ok ∷ reply.Handle 6
        ∷ reply.Names (entry_of g 1 (File (metadata 0 0 0o644 100 100) []) ∷ []) ∷ [] }
    // Both paths name one file: posix-rename does nothing, while RENAME and a link fail.
    ensures one_file { replies (new_file f ∷ OnPaths Link (f ∷ []) (g ∷ [])
        ∷ OnPaths PosixRename (f ∷ []) (g ∷ []) ∷ OnPaths Rename (f ∷ []) (g ∷ [])
        ∷ OnPaths Link (f ∷ []) (g ∷ []) ∷ OnPath Stat (f ∷ []) ∷ OnPath Stat (g ∷ []) ∷ [])
        ≡ reply.Handle 1 ∷ ok ∷ ok ∷ failed ∷ failed ∷ reply.Attrs (file_attrs 0)
        ∷ reply.Attrs (file_attrs 0) ∷ [] }
{}
