//! What the tests of forms tell.

ghost use Rattle.std.specs.Prelude.{◌↔◌, ℕ, List as AnyList, IsTrue};
ghost use Rattle.bk_text.specs.Alphabets.{IsName, IsHost, IsSetName, IsTapeName, IsElement};
ghost use Rattle.bk_text.specs.LevelPaths.{IsLevelPath};
ghost use Rattle.bk_text.specs.Partitions.{IsPartText};
ghost use Rattle.bk_text.specs.Tests.{word_test, name_test, host_test, set_name_test, tape_name_test, part_test, element_test, level_path_test};
ghost use Rattle.bk_text.specs.Words.{IsWordOf};
ghost use Rattle.bk_text.specs.declared.words.Alphabet.{Alphabet as AnyAlphabet};

/// Each test tells of every text whether it is of the form.
pub fn form_tests()
    ensures word { (alphabet : AnyAlphabet) (most : ℕ) (text : AnyList ℕ) → IsTrue (word_test alphabet most text) ↔ IsWordOf alphabet most text }
    ensures name { (text : AnyList ℕ) → IsTrue (name_test text) ↔ IsName text }
    ensures host { (text : AnyList ℕ) → IsTrue (host_test text) ↔ IsHost text }
    ensures set_name { (text : AnyList ℕ) → IsTrue (set_name_test text) ↔ IsSetName text }
    ensures tape_name { (text : AnyList ℕ) → IsTrue (tape_name_test text) ↔ IsTapeName text }
    ensures part { (text : AnyList ℕ) → IsTrue (part_test text) ↔ IsPartText text }
    ensures element { (text : AnyList ℕ) → IsTrue (element_test text) ↔ IsElement text }
    ensures level_path { (text : AnyList ℕ) → IsTrue (level_path_test text) ↔ IsLevelPath text }
{}
