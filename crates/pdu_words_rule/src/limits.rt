// The greatest numbers of words.
ghost use Rattle.std.specs.Prelude.{◌≡◌, ◌∷◌, get_or};
ghost use Rattle.pdu_words.specs.FromWords.{within};

// Each word after the type is at most its number of most.
#[inline(always)]
pub(crate) fn is_within(w: &[u32; 12], most: [u32; 11]) -> bool
    ensures { result ≡ within w.now (get_or w.now 0 0 ∷ most) }
{
    let mut ok = true;
    for i in 0..11 {
        ok &= w[i + 1] <= most[i];
    }
    ok
}
