//! Laws of the definitions, which no program calls: what the reading function returns, in the words of the grammar.
ghost use Rattle.std.specs.Prelude.{◌≡◌, ◌≤◌, ◌↔◌, List, [], ◌∷◌, ◌++◌, Ok, Err, length};
ghost use Rattle.prt_addr.specs.Word.{Word};
ghost use Rattle.prt_refusals.specs.declared.refusal.Refusal.{Refusal};
ghost use Rattle.prt_command.specs.Grammar.{AreItems, FirstFault, Good, put_all};
ghost use Rattle.prt_command.specs.LineKinds.{LineKind};
ghost use Rattle.prt_command.specs.Reading.{Meaning, items_request};
ghost use Rattle.prt_command.specs.Spelling.{HasFault, Spells};
ghost use Rattle.prt_command.specs.Scan.{items_of};
ghost use Rattle.prt_command.specs.declared.item.Item.{Item};
ghost use Rattle.prt_command.specs.declared.item.Items.{Items};
ghost use Rattle.prt_command.specs.declared.request.Request.{Request};

/// Words yield items exactly when they are whole items, each at most once. Otherwise the fault is that of what comes after the
/// longest run of good items.
pub fn first_faults()
    ensures found { (line : LineKind) (given items : Items) (ws : List Word) → items_of line given ws ≡ Ok items →
        (taken : List Item) × Good line given ws taken × (items ≡ put_all taken given) }
    ensures only { (line : LineKind) (given : Items) (ws : List Word) (taken : List Item) → Good line given ws taken →
        items_of line given ws ≡ Ok (put_all taken given) }
    ensures fault { (line : LineKind) (given : Items) (ws : List Word) (e : Refusal) → items_of line given ws ≡ Err e → FirstFault line given ws e }
    ensures fault_only { (line : LineKind) (given : Items) (ws : List Word) (e : Refusal) → FirstFault line given ws e → items_of line given ws ≡ Err e }
    ensures longest { (line : LineKind) (given : Items) (ws ahead after : List Word) (taken : List Item) (e : Refusal) →
        (first : FirstFault line given ws e) → Good line given ahead taken → ws ≡ ahead ++ after → length ahead ≤ length first.front }
{}

/// The words after a verb yield the request that they express, or their first fault, and one of both always.
pub fn readings()
    ensures request { (verb : Meaning) (ws : List Word) (request : Request) → (items_request verb ws ≡ Ok request) ↔ Spells verb ws request }
    ensures fault { (verb : Meaning) (ws : List Word) (e : Refusal) → (items_request verb ws ≡ Err e) ↔ HasFault verb ws e }
{}

/// The order of items doesn't matter: if the words of two neighbours change places, the line asks for the same.
pub fn any_order()
    ensures { (verb : Meaning) (front a b rest : List Word) (taken : List Item) (x y : Item) (request : Request) →
        AreItems verb.line front taken → AreItems verb.line a (x ∷ []) → AreItems verb.line b (y ∷ []) →
        Spells verb (front ++ (a ++ (b ++ rest))) request → Spells verb (front ++ (b ++ (a ++ rest))) request }
{}
