//! How keys are compared and hashed.
ghost use Rattle.std.specs.Prelude.{◌≡◌, ◌==◌};
ghost use Rattle.std.specs.Ordering.{on};
ghost use Rattle.std.specs.Cmp.{partial_equiv_from_equiv, on_equiv};
ghost use Rattle.minus_term.specs.NormalForm.{normal_form, KeysOfOneNormalFormAreEqual, EqualKeysHashEqually, LettersWithShiftAreCapitals};
ghost use Rattle.minus_term.specs.contracts.event.equality.NormalKeyEq.TheImpl.Laws.{laws-law as normal_laws};
ghost use Rattle.minus_term.specs.contracts.event.equality.NormalKeyHash.TheImpl.Laws.{respects_eq-law as normal_respects};

use crate::event::{KeyCode, KeyEvent, KeyEventKind, KeyEventState, KeyModifiers};
use bitflags::Flags;
use std::hash::{Hash, Hasher};

/// The form of a key that keys are compared and hashed by.
#[derive(Clone, Copy, PartialEq, Eq, Hash)]
pub struct NormalKey {
    /// The key.
    pub code: KeyCode,
    /// The modifiers held down with it.
    pub modifiers: KeyModifiers,
    /// What is done with it.
    pub kind: KeyEventKind,
    /// The locks and the keypad.
    pub state: KeyEventState,
}

impl KeyEvent {
    /// The normal form: an ASCII capital gets SHIFT; otherwise SHIFT makes an ASCII letter its
    /// capital. All else stays.
    pub fn normal(&self) -> NormalKey
        ensures { result ≡ normal_form self.now }
    {
        let mut code = self.code;
        let mut modifiers = self.modifiers;
        if let KeyCode::Char(character) = self.code {
            if character.is_ascii_uppercase() {
                modifiers.insert(KeyModifiers::SHIFT);
            } else if self.modifiers.contains(KeyModifiers::SHIFT) {
                code = KeyCode::Char(character.to_ascii_uppercase());
            }
        }
        NormalKey {
            code,
            modifiers,
            kind: self.kind,
            state: self.state,
        }
    }
}

impl PartialEq for KeyEvent {
    ghost eq = { on normal_form ⟦<NormalKey as PartialEq>⟧.eq };

    ghost laws = { partial_equiv_from_equiv (on_equiv normal_form normal_laws) };

    fn eq(&self, other: &KeyEvent) -> bool {
        self.normal() == other.normal()
    }
}

impl Eq for KeyEvent {
    ghost laws = { on_equiv normal_form normal_laws };
}

impl Hash for KeyEvent {
    ghost hash_input = { λ k. ⟦<NormalKey as Hash>⟧.hash_input (normal_form k) };

    ghost respects_eq = { λ a b h. normal_respects (normal_form a) (normal_form b) h };

    fn hash<H: Hasher>(&self, state: &mut H) {
        self.normal().hash(state);
    }
}

/// A law: keys of one normal form are equal.
pub fn keys_of_one_normal_form_are_equal()
    ensures { KeysOfOneNormalFormAreEqual ⟦<KeyEvent as PartialEq>⟧.eq }
{}

/// A law: equal keys hash equally.
pub fn equal_keys_hash_equally()
    ensures { EqualKeysHashEqually ⟦<KeyEvent as PartialEq>⟧.eq ⟦<KeyEvent as Hash>⟧.hash_input }
{}

/// A law: an ASCII letter with SHIFT equals its capital, with SHIFT or without.
pub fn letters_with_shift_are_capitals()
    ensures { LettersWithShiftAreCapitals ⟦<KeyEvent as PartialEq>⟧.eq }
{}
