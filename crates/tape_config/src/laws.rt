//! What is so of every configuration.

ghost use Rattle.std.specs.Prelude.{◌≡◌, ◌≢◌, ℕ, List, Some, Ok, IfSome};
ghost use Rattle.bk_text.specs.Alphabets.{IsHost};
ghost use Rattle.tape_config.specs.declared.port.PortFields.{PortFields};
ghost use Rattle.tape_config.specs.Configs.{Settings, config_of, port_in};
ghost use Rattle.tape_config.specs.Ports.{AreApart, IsAmong, IsWithinLimits};

use bk_text::form_tests;

/// The ports of a configuration are within their limits, and the name of its cell, where a line says it, is one of a server.
pub fn a_configuration_has_its_forms()
    ensures ports { (bytes : List ℕ) (settings : Settings) → config_of bytes ≡ Ok settings → (offset : ℕ) (port : PortFields) → port_in offset settings.entries ≡ Some port → IsWithinLimits port }
    ensures cell { (bytes : List ℕ) (settings : Settings) → config_of bytes ≡ Ok settings → IfSome settings.cell IsHost }
{
    form_tests();
}

/// Two ports of a configuration have no slot in common.
pub fn ports_of_a_configuration_are_apart()
    ensures apart { (bytes : List ℕ) (settings : Settings) → config_of bytes ≡ Ok settings → (one other : ℕ) (p q : PortFields) → one ≢ other → port_in one settings.entries ≡ Some p → port_in other settings.entries ≡ Some q → AreApart p q }
    ensures none { (p q : PortFields) → AreApart p q → (k : ℕ) → IsAmong p k → IsAmong q k → ⊥ }
{}
