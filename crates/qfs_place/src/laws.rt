//! Laws of the loads and of the choice. Each function here does nothing, and its contract is a
//! law.
ghost use Rattle.std.specs.Prelude.{◌≡◌, ◌++◌, ◌∷◌, [], ◌<◌, ◌≤◌, ℕ, List, Option, None, fold, filter, flat_map, length};
ghost use Rattle.std.specs.List.{list_any};
ghost use Rattle.qfs_base.specs.declared.change.Change.{Change};
ghost use Rattle.qfs_base.specs.declared.change.Change.TheVariants.{CloseFile, AbortFile, RemoveFile, GrantSlot, FailGrant, GiveUp, ConfirmSlot, EmptySlot, ServerUp, ServerDown, ServerLeaves, ServerSleeps};
ghost use Rattle.qfs_base.specs.declared.chunk.BlockId.{BlockId};
ghost use Rattle.qfs_base.specs.declared.chunk.Copy.{Copy};
ghost use Rattle.qfs_base.specs.declared.image.Load.{Load};
ghost use Rattle.qfs_base.specs.declared.image.MetaImage.{MetaImage};
ghost use Rattle.qfs_base.specs.declared.image.ServerView.{ServerView};
ghost use Rattle.qfs_base.specs.declared.image.SlotRow.{SlotRow};
ghost use Rattle.qfs_base.specs.NameTree.{PathNames};
ghost use Rattle.qfs_base.specs.declared.reply.MetaReply.TheVariants.{Left, Nothing};
ghost use Rattle.qfs_base.specs.Shape.{Shape};
ghost use Rattle.qfs_base.specs.Mask.{all_slots};
ghost use Rattle.qfs_base.specs.Sizes.{SLOTS};
ghost use Rattle.qfs_base.specs.Table.{Each, IsRising};
ghost use Rattle.qfs_model_meta.specs.Apply.{apply};
ghost use Rattle.qfs_model_meta.specs.Decision.{Tells, need};
ghost use Rattle.qfs_model_meta.specs.Grammar.{IsServer};
ghost use Rattle.qfs_model_meta.specs.MoveRequests.{is_barred, decide_balance};
ghost use Rattle.qfs_model_meta.specs.Placing.{census, choose, with_live_servers, barred_for_put, barred_for_block};
ghost use Rattle.qfs_model_meta.specs.PutRequests.{failed_with, chosen_for_put};
ghost use Rattle.qfs_model_meta.specs.ServerRequests.{decide_left_on};
ghost use Rattle.qfs_model_meta.specs.Servers.{server_at, server_up, server_down, server_leaving, server_asleep};
ghost use Rattle.qfs_model_meta.specs.Slots.{slot_at, slot_cmp, slots_of, granted_copy, count_on, is_of_block};
ghost use Rattle.qfs_place.specs.BalanceLaws.{shift_copy};
ghost use Rattle.qfs_place.specs.Barred.{row_copies, has_live_on};
ghost use Rattle.qfs_place.specs.BarredLaws.{row_grants};
ghost use Rattle.qfs_place.specs.ChangeLaws.{census_of};
ghost use Rattle.qfs_place.specs.Choosing.{uneven};
ghost use Rattle.qfs_place.specs.NineLaws.{state_grants};
ghost use Rattle.qfs_place.specs.Loads.{change_load, one_more, load_at, seen_as, counted_as, count_row, uncount_live, uncount_row};
ghost use Rattle.qfs_place.specs.ServerLaws.{LeavesLoads};

/// The census with the slots that a table has, one row after another.
pub fn rows_are_counted()
    ensures { (servers : List ServerView) (rows : List SlotRow) (row : SlotRow)
        → census servers (rows ++ row ∷ []) ≡ count_row servers (census servers rows) row }
{}

/// A grant adds one to its server's load. A grant that is given up, or whose server failed the
/// put, leaves its server. Where a grant becomes current only the copy before it leaves, and where
/// a slot is emptied both do.
pub fn loads_follow_slots()
    ensures granted { (m : MetaImage) (block : BlockId) (slot server actor lease : ℕ)
        → IsRising slot_cmp m.slots → (slot_at m.slots block slot).grant ≡ None
        → census_of (apply m (GrantSlot block slot server actor lease))
        ≡ change_load one_more (census_of m) server }
    ensures given_up { (m : MetaImage) (block : BlockId) (slot : ℕ) → IsRising slot_cmp m.slots
        → census_of (apply m (GiveUp block slot))
        ≡ uncount_live m.servers (granted_copy (slot_at m.slots block slot).grant) (census_of m) }
    ensures failed { (m : MetaImage) (block : BlockId) (slot : ℕ) → IsRising slot_cmp m.slots
        → census_of (apply m (FailGrant block slot))
        ≡ uncount_live m.servers (granted_copy (slot_at m.slots block slot).grant) (census_of m) }
    ensures confirmed { (m : MetaImage) (block : BlockId) (slot : ℕ) → IsRising slot_cmp m.slots
        → census_of (apply m (ConfirmSlot block slot))
        ≡ uncount_live m.servers (slot_at m.slots block slot).current (census_of m) }
    ensures emptied { (m : MetaImage) (block : BlockId) (slot : ℕ) → IsRising slot_cmp m.slots
        → census_of (apply m (EmptySlot block slot))
        ≡ uncount_live m.servers (granted_copy (slot_at m.slots block slot).grant)
        (uncount_live m.servers (slot_at m.slots block slot).current (census_of m)) }
{}

/// The copies of a file that is given up or removed leave their servers. Of a file that is closed
/// only the copies do that were current before its grants.
pub fn loads_follow_files()
    ensures aborted { (m : MetaImage) (file : ℕ) → census_of (apply m (AbortFile file))
        ≡ fold (uncount_row m.servers) (census_of m) (slots_of file m.slots) }
    ensures removed { (m : MetaImage) (path : PathNames) (file : ℕ)
        → census_of (apply m (RemoveFile path file))
        ≡ fold (uncount_row m.servers) (census_of m) (slots_of file m.slots) }
    ensures closed { (m : MetaImage) (file actor command : ℕ)
        → census_of (apply m (CloseFile file actor command))
        ≡ fold (λ loads (row : SlotRow). uncount_live m.servers row.state.current loads)
        (census_of m) (slots_of file m.slots) }
{}

/// A server that goes down, leaves or hibernates, and one that comes up again in the life that was
/// known, keeps its load. One that comes up in a new life has the copies that stand there in it.
pub fn loads_follow_servers()
    ensures up_again { (m : MetaImage) (server life : ℕ) → IsServer (length m.servers) server
        → life ≡ (server_at m.servers server).life
        → census_of (apply m (ServerUp server life))
        ≡ change_load (seen_as (server_up life (server_at m.servers server)))
        (census_of m) server }
    ensures up_anew { (m : MetaImage) (server life count : ℕ)
        → IsServer (length m.servers) server → count_on server life m.slots ≡ count
        → census_of (apply m (ServerUp server life))
        ≡ change_load (counted_as (server_up life (server_at m.servers server)) count)
        (census_of m) server }
    ensures down { (m : MetaImage) (server : ℕ) → IsServer (length m.servers) server
        → census_of (apply m (ServerDown server))
        ≡ change_load (seen_as (server_down (server_at m.servers server))) (census_of m) server }
    ensures leaving { (m : MetaImage) (server : ℕ) → IsServer (length m.servers) server
        → census_of (apply m (ServerLeaves server))
        ≡ change_load (seen_as (server_leaving (server_at m.servers server)))
        (census_of m) server }
    ensures asleep { (m : MetaImage) (server until : ℕ) → IsServer (length m.servers) server
        → census_of (apply m (ServerSleeps server until))
        ≡ change_load (seen_as (server_asleep until (server_at m.servers server)))
        (census_of m) server }
{}

/// A server's load is what `LeftOn` answers. Where copies leave servers no load rises, so a server
/// that isn't full isn't full after that either.
pub fn loads_are_counts()
    ensures left_on { (m : MetaImage) (server : ℕ) → IsServer (length m.servers) server
        → decide_left_on server m ≡ Tells (Left (load_at (census_of m) server).count) }
    ensures falls { (servers : List ServerView) (copy : Option Copy) (loads : List Load) (n : ℕ)
        → (load_at (uncount_live servers copy loads) n).count ≤ (load_at loads n).count }
{}

/// All other changes leave the loads as they are.
pub fn other_changes_leave_loads()
    ensures { (m : MetaImage) (change : Change) → LeavesLoads change
        → census_of (apply m change) ≡ census_of m }
{}

/// The server that a put of a slot is granted is the one that is chosen by the census as it
/// stands, the slot's pending grant counted, where the server of that grant is barred.
pub fn puts_choose_by_census()
    ensures { (servers : List ServerView) (slots : List SlotRow) (block : BlockId) (slot : ℕ)
        → IsRising slot_cmp slots
        → chosen_for_put block slot servers slots (slot_at slots block slot)
        ≡ choose (census servers slots) (barred_for_put servers slots block
        (failed_with (slot_at slots block slot).failed (slot_at slots block slot).grant)) }
{}

/// The servers that are barred from a block's chunks, one slot of the block after another.
pub fn rows_bar_servers()
    ensures puts { (servers : List ServerView) (slots : List SlotRow) (block : BlockId)
        (failed : List ℕ)
        → barred_for_put servers slots block failed
        ≡ with_live_servers servers failed
        (flat_map row_grants (filter (is_of_block block) slots)) }
    ensures next_grant { (servers : List ServerView) (set : List ℕ) (row : SlotRow)
        (rows : List SlotRow)
        → with_live_servers servers set (flat_map row_grants (row ∷ rows))
        ≡ with_live_servers servers (with_live_servers servers set (row_grants row))
        (flat_map row_grants rows) }
    ensures blocks { (servers : List ServerView) (slots : List SlotRow) (block : BlockId)
        → barred_for_block servers slots block
        ≡ with_live_servers servers [] (flat_map (λ (row : SlotRow). row_copies row.state)
        (filter (is_of_block block) slots)) }
    ensures next_copies { (servers : List ServerView) (set : List ℕ) (row : SlotRow)
        (rows : List SlotRow)
        → with_live_servers servers set
        (flat_map (λ (r : SlotRow). row_copies r.state) (row ∷ rows))
        ≡ with_live_servers servers (with_live_servers servers set (row_copies row.state))
        (flat_map (λ (r : SlotRow). row_copies r.state) rows) }
    ensures barred { (servers : List ServerView) (slots : List SlotRow) (block : BlockId) (n : ℕ)
        → is_barred servers slots block n
        ≡ list_any (λ (row : SlotRow). has_live_on servers n row.state)
        (filter (is_of_block block) slots) }
{}

/// The same servers by the nine slots of the block, one look-up each, where no row is of another
/// slot.
pub fn nine_slots_bar_servers()
    ensures puts { (servers : List ServerView) (slots : List SlotRow) (block : BlockId)
        (failed : List ℕ) → IsRising slot_cmp slots
        → Each (λ (row : SlotRow). row.slot < SLOTS) slots
        → barred_for_put servers slots block failed
        ≡ with_live_servers servers failed
        (flat_map (λ slot. state_grants (slot_at slots block slot)) all_slots) }
    ensures blocks { (servers : List ServerView) (slots : List SlotRow) (block : BlockId)
        → IsRising slot_cmp slots → Each (λ (row : SlotRow). row.slot < SLOTS) slots
        → barred_for_block servers slots block
        ≡ with_live_servers servers []
        (flat_map (λ slot. row_copies (slot_at slots block slot)) all_slots) }
{}

/// The move that makes the loads more even goes between the two servers that `uneven` names, and
/// where there are none it is refused.
pub fn moves_even_loads_out()
    ensures { (layout : Shape) (term actor : ℕ) (m : MetaImage)
        → decide_balance layout term actor m
        ≡ need Nothing (shift_copy layout term actor m) (uneven (census m.servers m.slots)) }
{}
