//! A theorem about the texts of terms. The call changes nothing: its contract is the theorem.

ghost use Rattle.std.specs.Prelude.{◌*◌, ◌<◌, ◌≤◌, List, length, map, sum, IsTrue};
ghost use Rattle.std.specs.List.{list_all};
ghost use Rattle.tb_terms.specs.declared.term.Term.{Term};
ghost use Rattle.tb_terms.specs.Proper.{is_proper};
ghost use Rattle.tb_terms.specs.Sizes.{term_size};
ghost use Rattle.tb_terms.specs.Texts.{term_text, terms_text};

/// States that the text of a term has fewer than 21 bytes for each unit of its size, and joined texts at most 21. The longest number
/// and a comma have 21 bytes.
pub fn texts_are_short()
    ensures term { (term : Term) → IsTrue (is_proper term)
        → length (term_text term) < 21 * term_size term }
    ensures terms { (terms : List Term) → IsTrue (list_all is_proper terms)
        → length (terms_text terms) ≤ 21 * sum (map term_size terms) }
{}
