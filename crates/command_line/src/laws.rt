ghost use Rattle.std.specs.Prelude.{◌≡◌, ◌≢◌, ◌⊎◌, ◌↔◌, ℕ, List, [], ◌∷◌, Option, Some, codes, false, true};
ghost use Rattle.command_line.specs.Commands.{budget_option, most_seed, seed_option, sweep_budget_option, words_option, workers_option};
ghost use Rattle.command_line.specs.Plain.{AskCheck, AskFraig, IsInRange, IsPlain, SetsFlag, SetsFraigNumber, SetsName, SetsNumber, SetsText, Writes, kind_name};
ghost use Rattle.command_line.specs.PlainWords.{IsPlainCheck, PlainCheck};
ghost use Rattle.command_line.specs.declared.asked.TheConstants.{BUDGET_LIMIT, WORDS_LIMIT, WORKERS_LIMIT};
ghost use Rattle.command_line.specs.Saved.{IsFirstUnder, IsLeftUnder, is_first_under, is_left_under};
ghost use Rattle.command_line.specs.Words.{AreRefused, AskAmiss, Asks, CheckCommand, CheckIt, FraigCommand, FraigIt, LratIt, Misnames, SavesOver, WritesOver, WitnessOver, WitnessSaved, Request, SelfIt, WantHelp, WantInfo, WantVersion, misnamed_pairing, plain_check, plain_fraig};
ghost use Rattle.workload_gen.specs.declared.kind.Kind.{Kind};
ghost use Rattle.workload_gen.specs.declared.workload.TheConstants.{MOST_BITS};

/// Words ask for something, or for help, or for the version, or are refused, and no two of these at once.
pub fn words_are_one_of()
    ensures some { (words : List (List ℕ)) →
        ((r : Request) × Asks words r) ⊎ (WantInfo words ⊎ AreRefused words) }
    ensures asked { (words : List (List ℕ)) (r : Request) →
        Asks words r → ¬ (WantInfo words ⊎ AreRefused words) }
    ensures informed { (words : List (List ℕ)) → WantInfo words → ¬ AreRefused words }
    ensures helped { (words : List (List ℕ)) → WantHelp words → ¬ WantVersion words }
{}

/// Names of files that a check may leave under a prefix are told from all others, and so are those of check 0.
pub fn left_names()
    ensures any { (prefix name : List ℕ) → (is_left_under prefix name ≡ true) ↔ IsLeftUnder prefix name }
    ensures first { (prefix name : List ℕ) → (is_first_under prefix name ≡ true) ↔ IsFirstUnder prefix name }
{}

/// The file that a check saves is none of those that it leaves.
pub fn saved_is_apart()
    ensures { (words : List (List ℕ)) (c : CheckCommand) (prefix name : List ℕ) → Asks words (CheckIt c)
        → c.out ≡ Some prefix → c.save ≡ Some name → ¬ IsLeftUnder prefix name }
{}

/// The file to which an input is written is none of those either, nor the one that a check saves.
pub fn witness_is_apart()
    ensures left { (words : List (List ℕ)) (c : CheckCommand) (prefix name : List ℕ) → Asks words (CheckIt c)
        → c.out ≡ Some prefix → c.witness ≡ Some name → ¬ IsLeftUnder prefix name }
    ensures saved { (words : List (List ℕ)) (c : CheckCommand) (name lemmas : List ℕ) → Asks words (CheckIt c)
        → c.witness ≡ Some name → c.save ≡ Some lemmas → name ≢ lemmas }
{}

/// The file to which a reduced circuit is written is none of those that are left beside it.
pub fn reduced_is_apart()
    ensures { (words : List (List ℕ)) (c : FraigCommand) (prefix : List ℕ) → Asks words (FraigIt c)
        → c.out ≡ Some prefix → ¬ IsFirstUnder prefix c.reduced }
{}

/// A number that is given for an option is in the option's range, where the words have no fault.
pub fn given_numbers()
    ensures workers { IsInRange (codes "check") workers_option }
    ensures seed { IsInRange (codes "check") seed_option }
    ensures words { IsInRange (codes "check") words_option }
    ensures sweep_budget { IsInRange (codes "check") sweep_budget_option }
    ensures budget { IsInRange (codes "check") budget_option }
    ensures fraig_workers { IsInRange (codes "fraig") workers_option }
    ensures fraig_seed { IsInRange (codes "fraig") seed_option }
    ensures fraig_words { IsInRange (codes "fraig") words_option }
    ensures fraig_sweep_budget { IsInRange (codes "fraig") sweep_budget_option }
{}

/// What arguments ask for that a user writes plainly: the names of files and the prefix don't begin with `-`,
/// and a number is digits alone, in its range.
pub fn plain_words()
    ensures check { (a b : List ℕ) → IsPlain a → IsPlain b →
        AskCheck (codes "check" ∷ a ∷ b ∷ []) (plain_check a b) }
    ensures edits { SetsText (codes "--edits") (λ c f. record c { edits = Some f }) }
    ensures out { SetsText (codes "--out") (λ c p. record c { out = Some p }) }
    ensures load { SetsText (codes "--load") (λ c f. record c { load = Some f }) }
    ensures save { SetsText (codes "--save") (λ c f. record c { save = Some f }) }
    ensures witness { SetsText (codes "--witness") (λ c f. record c { witness = Some f }) }
    ensures workers { SetsNumber (codes "--workers") 1 WORKERS_LIMIT (λ c n. record c { workers = n }) }
    ensures seed { SetsNumber (codes "--seed") 0 most_seed (λ c n. record c { seed = n }) }
    ensures words { SetsNumber (codes "--words") 1 WORDS_LIMIT (λ c n. record c { words = n }) }
    ensures sweep_budget { SetsNumber (codes "--sweep-budget") 1 BUDGET_LIMIT
        (λ c n. record c { sweep_budget = n }) }
    ensures budget { SetsNumber (codes "--budget") 1 BUDGET_LIMIT (λ c n. record c { budget = n }) }
    ensures match_position { SetsName (codes "--match") (codes "position")
        (λ c. record c { by_name = false }) }
    ensures match_names { SetsName (codes "--match") (codes "names")
        (λ c. record c { by_name = true }) }
    ensures stats { SetsFlag (codes "--stats") (λ c. record c { stats = true }) }
    ensures progress { SetsFlag (codes "--progress") (λ c. record c { progress = true }) }
    ensures no_pairing { (program a b word : List ℕ) → IsPlain a → IsPlain b → IsPlain word
        → word ≢ codes "position" → word ≢ codes "names"
        → AskAmiss (program ∷ codes "check" ∷ a ∷ b ∷ codes "--match" ∷ word ∷ [])
        (Misnames (misnamed_pairing word)) }
    ensures saves_over { (program a b p word : List ℕ) → IsPlain a → IsPlain b → IsPlain p → IsPlain word
        → IsLeftUnder p word
        → AskAmiss (program ∷ codes "check" ∷ a ∷ b ∷ codes "--out" ∷ p ∷ codes "--save" ∷ word ∷ [])
        SavesOver }
    ensures out_save { (a b p word : List ℕ) → IsPlain a → IsPlain b → IsPlain p → IsPlain word
        → ¬ IsLeftUnder p word
        → AskCheck (codes "check" ∷ a ∷ b ∷ codes "--out" ∷ p ∷ codes "--save" ∷ word ∷ [])
        (record (plain_check a b) { out = Some p; save = Some word }) }
    ensures witness_over { (program a b p word : List ℕ) → IsPlain a → IsPlain b → IsPlain p → IsPlain word
        → IsLeftUnder p word
        → AskAmiss (program ∷ codes "check" ∷ a ∷ b ∷ codes "--out" ∷ p ∷ codes "--witness" ∷ word ∷ [])
        WitnessOver }
    ensures out_witness { (a b p word : List ℕ) → IsPlain a → IsPlain b → IsPlain p → IsPlain word
        → ¬ IsLeftUnder p word
        → AskCheck (codes "check" ∷ a ∷ b ∷ codes "--out" ∷ p ∷ codes "--witness" ∷ word ∷ [])
        (record (plain_check a b) { out = Some p; witness = Some word }) }
    ensures witness_saved { (program a b word : List ℕ) → IsPlain a → IsPlain b → IsPlain word
        → AskAmiss (program ∷ codes "check" ∷ a ∷ b ∷ codes "--save" ∷ word ∷ codes "--witness" ∷ word ∷ [])
        WitnessSaved }
    ensures save_witness { (a b f word : List ℕ) → IsPlain a → IsPlain b → IsPlain f → IsPlain word → f ≢ word
        → AskCheck (codes "check" ∷ a ∷ b ∷ codes "--save" ∷ f ∷ codes "--witness" ∷ word ∷ [])
        (record (plain_check a b) { save = Some f; witness = Some word }) }
    ensures out_budget { (a b p word : List ℕ) (n : ℕ) → IsPlain a → IsPlain b → IsPlain p
        → Writes 1 BUDGET_LIMIT word n
        → AskCheck (codes "check" ∷ a ∷ b ∷ codes "--out" ∷ p ∷ codes "--budget" ∷ word ∷ [])
        (record (plain_check a b) { out = Some p; budget = n }) }
    ensures budget_out { (a b p word : List ℕ) (n : ℕ) → IsPlain a → IsPlain b → IsPlain p
        → Writes 1 BUDGET_LIMIT word n
        → AskCheck (codes "check" ∷ a ∷ b ∷ codes "--budget" ∷ word ∷ codes "--out" ∷ p ∷ [])
        (record (plain_check a b) { out = Some p; budget = n }) }
    ensures fraig { (a reduced : List ℕ) → IsPlain a → IsPlain reduced →
        AskFraig (codes "fraig" ∷ a ∷ reduced ∷ []) (plain_fraig a reduced) }
    ensures fraig_out { (a reduced p : List ℕ) → IsPlain a → IsPlain reduced → IsPlain p
        → ¬ IsFirstUnder p reduced
        → AskFraig (codes "fraig" ∷ a ∷ reduced ∷ codes "--out" ∷ p ∷ [])
        (record (plain_fraig a reduced) { out = Some p }) }
    ensures writes_over { (program a reduced p : List ℕ) → IsPlain a → IsPlain reduced → IsPlain p
        → IsFirstUnder p reduced
        → AskAmiss (program ∷ codes "fraig" ∷ a ∷ reduced ∷ codes "--out" ∷ p ∷ []) WritesOver }
    ensures fraig_workers { SetsFraigNumber (codes "--workers") 1 WORKERS_LIMIT
        (λ c n. record c { workers = n }) }
    ensures fraig_seed { SetsFraigNumber (codes "--seed") 0 most_seed (λ c n. record c { seed = n }) }
    ensures fraig_words { SetsFraigNumber (codes "--words") 1 WORDS_LIMIT
        (λ c n. record c { words = n }) }
    ensures fraig_sweep_budget { SetsFraigNumber (codes "--sweep-budget") 1 BUDGET_LIMIT
        (λ c n. record c { sweep_budget = n }) }
    ensures lrat { (program cnf proof : List ℕ) → IsPlain cnf → IsPlain proof →
        Asks (program ∷ codes "lrat" ∷ cnf ∷ proof ∷ []) (LratIt (record { cnf = cnf; proof = proof })) }
    ensures own { (program word : List ℕ) (kind : Kind) (n : ℕ) → Writes 1 MOST_BITS word n →
        Asks (program ∷ codes "self" ∷ kind_name kind ∷ word ∷ []) (SelfIt (record { kind = kind; n = n })) }
{}

/// Plain words, where they ask for anything, ask for a check of their two files that writes under the
/// prefix of `--out` alone, and for no help and no version: they read and write no other file.
pub fn plain_checks()
    ensures asked { (words : List (List ℕ)) (a b : List ℕ) (out : Option (List ℕ)) (r : Request) →
        PlainCheck a b out words → Asks words r →
        (c : CheckCommand) × (r ≡ CheckIt c) × IsPlainCheck a b out c }
    ensures uninformed { (words : List (List ℕ)) (a b : List ℕ) (out : Option (List ℕ)) →
        PlainCheck a b out words → ¬ WantInfo words }
{}
