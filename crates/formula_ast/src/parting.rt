ghost use Rattle.std.specs.Prelude.{◌≡◌, ◌<◌, ◌==◌, [], ◌∷◌, length, IfSome};
ghost use Rattle.std.specs.List.{slice_split};
ghost use Rattle.std.specs.Option.{option_map_or};

/// The bytes of `text` before the first byte `at`, and those after it, where there is one.
pub fn cut(text: &[u8], at: u8) -> (&[u8], Option<&[u8]>)
    ensures parts { slice_split (λ byte. byte == at) text.now
        ≡ result.0.now ∷ option_map_or (λ rest. slice_split (λ byte. byte == at) rest.now) result.1 [] }
    ensures shorter { IfSome result.1 (λ rest. length rest.now < length text.now) }
{
    for (i, byte) in text.iter().enumerate() {
        if *byte == at {
            return (&text[..i], Some(&text[i + 1..]));
        }
    }
    (text, None)
}
