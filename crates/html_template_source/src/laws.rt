//! The laws of sources.
ghost use Rattle.std.specs.Prelude.{◌≡◌, ◌↔◌, ℕ, IsErrOf, List, None, Result, Some, map, true};
ghost use Rattle.html_template.specs.FillFaults.{fill_fault};
ghost use Rattle.html_template.specs.FirstFault.{AreNone, IsFirst};
ghost use Rattle.html_template.specs.Templates.{Chunk, Given, given, part_of, texts_of};
ghost use Rattle.html_template.specs.declared.faults.FillFault.{FillFault};
ghost use Rattle.html_template.specs.declared.faults.WriteFault.{WriteFault};
ghost use Rattle.html_template.specs.declared.faults.WriteFault.TheVariants.{Texts};
ghost use Rattle.html_template_source.specs.Bindings.{
  AnswersBind,
  AnswersBinding,
  Binding,
  IsDoubled,
  IsEarly,
  IsUnknown,
  bind_fault,
  binding_faults,
  early_fault,
  slot_faults,
  text_of,
};
ghost use Rattle.html_template_source.specs.declared.faults.BindFault.{BindFault};
ghost use Rattle.html_template_source.specs.declared.faults.BindFault.TheVariants.{
  Doubled,
  Fill,
  Missing,
  Unknown,
};
ghost use Rattle.html_template_source.specs.NamedTemplates.{chunks_of, names_of};
ghost use Rattle.html_template_source.specs.Sources.{IsSourceOf, TakeTurns, is_source};

use crate::named::NamedTemplate;
use html_template::Part;
use std::alloc::Allocator;

/// A source has one list of parts, in which markup and slots take turns, and one list of names. Markup
/// follows markup only at a `{{` of it.
///
/// For instance those of `<p>{{name}}</p>` are `<p>`, a slot and `</p>`, and `name`.
pub fn source_law(source: &str)
    ensures { (parts others : List Given) (names more : List (List ℕ))
        → TakeTurns parts → IsSourceOf parts names source.now
        → TakeTurns others → IsSourceOf others more source.now
        → (parts ≡ others) × (names ≡ more) }
{}

/// The template that a source of one's own was parsed to has the parts and the names that stand in it.
///
/// For instance that of `<p>{{name}}</p>` has the parts `<p>`, a slot and `</p>` and the name `name`. So
/// where `name` is bound, no name is missing.
pub fn own_source_law<A: Allocator + Copy>(
    template: &NamedTemplate<'_, A>,
    source: &str,
    parts: &[Part],
    names: &[&str],
)
    requires parsed { IsSourceOf (map part_of (chunks_of template.now)) (names_of template.now)
        source.now }
    requires turns { TakeTurns (map part_of (chunks_of template.now)) }
    requires own { is_source (map given parts.now) (texts_of names.now) source.now ≡ true }
    ensures parts { map part_of (chunks_of template.now) ≡ map given parts.now }
    ensures names { names_of template.now ≡ texts_of names.now }
{}

/// A fault of a binding or of a slot is answered exactly where it is the first: of the bindings, by
/// `binding_faults`, the fault of each in order, then of the slots, by `slot_faults`. One of the texts is
/// the first where these have none.
///
/// For instance of `<p>{{a}}</p>`, with texts for `b` and for `a`, the fault is `Unknown(0)`.
pub fn bind_faults_law()
    ensures answered { (bindings : List Binding) (names : List (List ℕ)) (chunks : List Chunk)
        (result : Result (Unit {0}) BindFault) (fault : BindFault) → IsEarly fault
        → AnswersBind bindings names chunks result
        → IsErrOf result fault ↔ (bind_fault bindings names chunks ≡ Some fault) }
    ensures written { (bindings : List Binding) (names : List (List ℕ)) (chunks : List Chunk)
        (result : Result (Unit {0}) (WriteFault BindFault)) (fault : BindFault) → IsEarly fault
        → AnswersBinding bindings names chunks result
        → IsErrOf result (Texts fault) ↔ (bind_fault bindings names chunks ≡ Some fault) }
    ensures unknown { (bindings : List Binding) (names : List (List ℕ)) (chunks : List Chunk)
        (number : ℕ) → (bind_fault bindings names chunks ≡ Some (Unknown number))
        ↔ IsFirst number IsUnknown (binding_faults names bindings) }
    ensures doubled { (bindings : List Binding) (names : List (List ℕ)) (chunks : List Chunk)
        (number : ℕ) → (bind_fault bindings names chunks ≡ Some (Doubled number))
        ↔ IsFirst number IsDoubled (binding_faults names bindings) }
    ensures missing { (bindings : List Binding) (names : List (List ℕ)) (chunks : List Chunk)
        (number : ℕ) → (bind_fault bindings names chunks ≡ Some (Missing number))
        ↔ (AreNone (binding_faults names bindings) × IsFirst number tt (slot_faults bindings names)) }
    ensures fill { (bindings : List Binding) (names : List (List ℕ)) (chunks : List Chunk)
        (fault : FillFault) → (bind_fault bindings names chunks ≡ Some (Fill fault))
        ↔ ((early_fault bindings names ≡ None)
        × (fill_fault chunks (map (text_of bindings) names) ≡ Some fault)) }
{}
