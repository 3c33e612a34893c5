//! Worked examples: JSON texts with and without a number that has a fraction or an exponent.
ghost use Rattle.std.specs.Prelude.{◌≡◌, None, codes, false, true};
ghost use Rattle.mj_json.specs.Json.{has_decimal, members_read};

/// Such a number counts even if its key is repeated. The contents of strings don't count.
pub fn decimal_rows()
    ensures twice { has_decimal (codes "{\"x\":1.5,\"x\":2}") ≡ true }
    ensures whole { has_decimal (codes "{\"x\":2}") ≡ false }
    ensures exponent { has_decimal (codes "{\"x\":1e3}") ≡ true }
    ensures capital { has_decimal (codes "{\"x\":[1E3]}") ≡ true }
    ensures words { has_decimal (codes "[12, 3, true]") ≡ false }
    ensures text { has_decimal (codes "{\"x\":\"1.5\"}") ≡ false }
    ensures key { has_decimal (codes "{\"a1.5\":true}") ≡ false }
    ensures quote { has_decimal (codes "{\"x\":\"a\\\"1.5\"}") ≡ false }
    ensures backslash { has_decimal (codes "{\"x\":\"\\\\\",\"y\":1.5}") ≡ true }
    ensures refused { members_read (codes "{\"x\":1.5,\"x\":2}") ≡ None }
{}
