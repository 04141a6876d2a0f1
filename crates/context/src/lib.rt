//! Theorems about care and about contexts: each is the contract of a function that has nothing to compute.
#![tactic(auto)]

ghost use Rattle.std.specs.Prelude.{◌≡◌, ℕ, ◌+◌, ◌^◌, ◌<◌, ◌≤◌, Bool, true, false, List, length, None, Decides, ◌≢◌, slice_index};
ghost use Rattle.network.specs.Limits.{max_inputs};
ghost use Rattle.network.specs.Rows.{bit_at, bit_of};
ghost use Rattle.network.specs.Nets.{Net, nodes, size, row_at, LegalNet, replaced};
ghost use Rattle.network.specs.declared.row.Function.{Function};
ghost use Rattle.theory.specs.Values.{value, minterm_at, target};
ghost use Rattle.theory.specs.Same.{SameOutputs};
ghost use Rattle.context.specs.Care.{any_below, count_below, shows, care, free, care_count, CDC, dull, DullBelow, SameOnCare, Differ};
ghost use Rattle.context.specs.Ranks.{chosen, Ascending};
ghost use Rattle.context.specs.Levels.{In, Out, Within, is_fanin, into, outof, whole, windowed};
ghost use Rattle.context.specs.Windows.{Members, is_leaf, leaves_of, Leads, reach_of, Reaches};
ghost use Rattle.context.specs.Extracts.{new_of, place_of, renumber, extract_of, Extracted, leaf_values, ValuedInPlace};
ghost use Rattle.context.specs.Claims.{ContextRules, WholeRules};
ghost use Rattle.context.specs.Cases.{xor_net, shrunk_net, Cases};

/// The free minterms of a node are exactly its complete don't-cares. A care minterm has as many bits as
/// the node has fanins. Which minterms are care does not depend on the node's own function.
pub fn care_stands()
    ensures exact { (net : Net) (t y : ℕ) → Decides (free net t y) (CDC net t y) }
    ensures small { (net : Net) (t y : ℕ) → care net t y ≡ true → y < 2 ^ (row_at net t).count }
    ensures own { (net : Net) (t : ℕ) (f : Function) → LegalNet net → t < nodes net → (y : ℕ) → care (replaced net t f) t y ≡ care net t y }
{}

/// Two functions of a node that have the same value at every care minterm give networks with the same
/// outputs, and no others do: two that differ at some care minterm give networks that differ in some
/// output under some assignment.
pub fn functions_stand()
    ensures safe { (net : Net) (t : ℕ) (f g : Function) → LegalNet net → t < nodes net → SameOnCare net t f g → SameOutputs (replaced net t f) (replaced net t g) }
    ensures only { (net : Net) (t : ℕ) (f g : Function) → LegalNet net → t < nodes net → SameOutputs (replaced net t f) (replaced net t g) → SameOnCare net t f g }
    ensures harm { (net : Net) (t : ℕ) (f g : Function) (y : ℕ) → LegalNet net → t < nodes net → care net t y ≡ true → (bit_of f y ≢ bit_of g y) → Differ (replaced net t f) (replaced net t g) }
{}

/// A minterm is care exactly if one of the assignments below 2^inputs shows it. An assignment that is not
/// dull reads a care minterm that is not listed. Once all assignments are dull, every minterm that is not
/// listed is free. What is dull stays dull when the list grows. A list of care minterms has no more of them
/// than there are, and just these once all assignments are dull.
pub fn dull_stands()
    ensures shown { (net : Net) (t y : ℕ) → Decides (care net t y) ((a : ℕ) × (a < 2 ^ net.inputs) × (shows net t (bit_at a) y ≡ true)) }
    ensures found { (net : Net) (t : ℕ) (listed x : ℕ → Bool) → dull net t listed x ≡ false → (care net t (minterm_at net t x) ≡ true) × (listed (minterm_at net t x) ≡ false) }
    ensures settled { (net : Net) (t : ℕ) (listed : ℕ → Bool) → DullBelow net t listed (2 ^ net.inputs) → (y : ℕ) → listed y ≡ false → free net t y ≡ true }
    ensures longer { (net : Net) (t : ℕ) (listed more x : ℕ → Bool) → ((y : ℕ) → listed y ≡ true → more y ≡ true) → dull net t listed x ≡ true → dull net t more x ≡ true }
    ensures most { (net : Net) (t : ℕ) (listed : ℕ → Bool) → ((y : ℕ) → listed y ≡ true → care net t y ≡ true) → count_below (2 ^ (row_at net t).count) listed ≤ care_count net t }
    ensures all { (net : Net) (t : ℕ) (listed : ℕ → Bool) → ((y : ℕ) → listed y ≡ true → care net t y ≡ true) → DullBelow net t listed (2 ^ net.inputs) → ((y : ℕ) → listed y ≡ care net t y) × (count_below (2 ^ (row_at net t).count) listed ≡ care_count net t) }
{}

/// The numbers that are chosen stand in ascending order, they are just those below the bound that have
/// the property, and there is no other such list.
pub fn chosen_stands()
    ensures ascending { (n : ℕ) (p : ℕ → Bool) → Ascending (chosen n p) }
    ensures each { (n : ℕ) (p : ℕ → Bool) (i : ℕ) → i < length (chosen n p) → (slice_index (chosen n p) i < n) × (p (slice_index (chosen n p) i) ≡ true) }
    ensures every { (n : ℕ) (p : ℕ → Bool) (s : ℕ) → s < n → p s ≡ true → (i : ℕ) × (i < length (chosen n p)) × (slice_index (chosen n p) i ≡ s) }
    ensures only { (n : ℕ) (p : ℕ → Bool) (xs : List ℕ) → Ascending xs → ((i : ℕ) → i < length xs → (slice_index xs i < n) × (p (slice_index xs i) ≡ true)) → ((s : ℕ) → s < n → p s ≡ true → (i : ℕ) × (i < length xs) × (slice_index xs i ≡ s)) → xs ≡ chosen n p }
{}

/// The sets In(X, d) and Out(X, d) are those that paths of at most d edges make, and so are the members of
/// a window. A window's members are nodes, and its target is one of them. They do not depend on any node's
/// function.
pub fn levels_stand()
    ensures into { (net : Net) (X : ℕ → Bool) (d s : ℕ) → Decides (into net X d s) (In net (λ b. X b ≡ true) d s) }
    ensures outof { (net : Net) (X : ℕ → Bool) (d s : ℕ) → Decides (outof net X d s) (Out net (λ a. X a ≡ true) d s) }
    ensures window { (net : Net) (T p q s : ℕ) → Decides (windowed net T p q s) (Within net T p q s) }
    ensures members { (net : Net) (t p q : ℕ) → t < nodes net → Members net (windowed net (net.inputs + t) p q) t }
    ensures kept { (net : Net) (n : ℕ) (f : Function) (T p q s : ℕ) → n < nodes net → windowed (replaced net n f) T p q s ≡ windowed net T p q s }
{}

/// The signals that a node leads to through members are those, and no others, that agree with the rows,
/// and just those to which a path leads on which every node is a member.
pub fn reaching_stands()
    ensures agrees { (net : Net) (member : ℕ → Bool) (T : ℕ) → LegalNet net → Reaches net member T (reach_of net member T) }
    ensures only { (net : Net) (member : ℕ → Bool) (T : ℕ) (reach : ℕ → Bool) → LegalNet net → Reaches net member T reach → (s : ℕ) → s < size net → reach s ≡ reach_of net member T s }
    ensures paths { (net : Net) (member : ℕ → Bool) (t s : ℕ) → LegalNet net → t < nodes net → s < size net → Decides (reach_of net member (net.inputs + t) s) (Leads net member (net.inputs + t) s) }
{}

/// The extraction is the context read as a network of its own, and the only legal network that is. It is
/// legal, if there are no more leaves than a network may have inputs. The target is one of its nodes, with
/// its row renumbered. To give the target another function and to extract can change places.
pub fn extraction_stands()
    ensures extracted { (net : Net) (member : ℕ → Bool) (t : ℕ) → Extracted net member t (extract_of net member t) }
    ensures only { (net : Net) (member : ℕ → Bool) (t : ℕ) (win : Net) → LegalNet win → Extracted net member t win → win ≡ extract_of net member t }
    ensures legal { (net : Net) (member : ℕ → Bool) (t : ℕ) → LegalNet net → Members net member t → length (leaves_of net member) ≤ max_inputs → LegalNet (extract_of net member t) }
    ensures node { (net : Net) (member : ℕ → Bool) (t : ℕ) → Members net member t → (place_of net member t < nodes (extract_of net member t)) × (new_of net member (net.inputs + t) ≡ (extract_of net member t).inputs + place_of net member t) × (row_at (extract_of net member t) (place_of net member t) ≡ renumber (new_of net member) (row_at net t)) }
    ensures replacing { (net : Net) (member : ℕ → Bool) (t : ℕ) (f : Function) → LegalNet net → Members net member t → extract_of (replaced net t f) member t ≡ replaced (extract_of net member t) (place_of net member t) f }
{}

/// Under the leaf values that an assignment of the primary inputs gives, the extraction has at every member
/// the value that the network has. The same holds of any leaf values, where the members are valued in
/// place with the target inverted.
pub fn extracted_values_stand()
    ensures values { (net : Net) (member : ℕ → Bool) (t : ℕ) (x : ℕ → Bool) → LegalNet net → Members net member t → (s : ℕ) → member s ≡ true → value None (extract_of net member t) (leaf_values net member (value None net x)) (new_of net member s) ≡ value None net x s }
    ensures inverted { (net : Net) (member : ℕ → Bool) (t : ℕ) (u : ℕ → Bool) → LegalNet net → Members net member t → ValuedInPlace (target net t) net member u → (s : ℕ) → member s ≡ true → value (target (extract_of net member t) (place_of net member t)) (extract_of net member t) (leaf_values net member u) (new_of net member s) ≡ u s }
{}

/// Every set of members with the target among them, a window or not: free in the context is exactly the
/// complete don't-care of the context read as a network, each such minterm is a complete don't-care of the
/// network, and two functions that agree on the context's care minterms give networks with the same
/// outputs. The care minterms do not depend on the target's own function.
pub fn contexts_stand()
    ensures rules { (net : Net) (member : ℕ → Bool) (t : ℕ) → LegalNet net → Members net member t → ContextRules net t (extract_of net member t) (place_of net member t) }
    ensures own { (net : Net) (member : ℕ → Bool) (t : ℕ) (f : Function) → LegalNet net → Members net member t → (y : ℕ) → care (extract_of (replaced net t f) member t) (place_of net member t) y ≡ care (extract_of net member t) (place_of net member t) y }
{}

/// The whole context: its leaves are the primary inputs that some node reads, and node t stays node t. Free
/// is exactly the complete don't-care of the network over all its primary inputs. Two functions that agree
/// on the care minterms give networks with the same outputs, two that differ on one give networks that
/// differ.
pub fn whole_stands()
    ensures members { (net : Net) (t : ℕ) → t < nodes net → Members net (whole net) t }
    ensures leaf { (net : Net) (s : ℕ) → LegalNet net → Decides (is_leaf net (whole net) s) ((s < net.inputs) × (any_below (nodes net) (λ n. is_fanin (row_at net n) s) ≡ true)) }
    ensures place { (net : Net) (t : ℕ) → t < nodes net → place_of net (whole net) t ≡ t }
    ensures rules { (net : Net) (t : ℕ) → LegalNet net → t < nodes net → WholeRules net t (extract_of net (whole net) t) }
{}

/// Worked cases come out as they must: which minterms of a small network are care, in the whole of it and
/// in windows, and what those windows are.
pub fn cases_stand()
    ensures { Cases xor_net shrunk_net }
{}
