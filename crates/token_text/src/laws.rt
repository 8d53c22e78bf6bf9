//! What holds of all forms.
ghost use Rattle.std.specs.Prelude.{ℕ, List, ◌<◌, ◌≤◌, ◌^◌, ◌≡◌, false};
ghost use Rattle.token_text.specs.Reading.{IsExact};
ghost use Rattle.token_text.specs.Numbers.{number_form, int_form};
ghost use Rattle.token_text.specs.Texts.{name_form, pset_name_form, tag_form, hex_form};
ghost use Rattle.token_text.specs.Words.{dest_form, any_tag_form, colour_form, source_form};
ghost use Rattle.token_text.specs.Lists.{ints_form, rank_args_form, rank_outs_form, triplets_form, members_form};

/// In each form the token of a value has no fault, it shows no other value, and it has no space.
pub fn forms_are_exact()
    ensures name { IsExact name_form }
    ensures pset_name { IsExact pset_name_form }
    ensures tag { IsExact tag_form }
    ensures number { (most : ℕ) → most < 2 ^ 64 → IsExact (number_form most) }
    ensures int { IsExact int_form }
    ensures hex { IsExact hex_form }
    ensures dest { IsExact dest_form }
    ensures any_tag { IsExact any_tag_form }
    ensures colour { IsExact colour_form }
    ensures source { IsExact source_form }
    ensures ints { IsExact ints_form }
    ensures rank_args { IsExact rank_args_form }
    ensures rank_outs { IsExact rank_outs_form }
    ensures triplets { IsExact triplets_form }
    ensures members { IsExact members_form }
{}
