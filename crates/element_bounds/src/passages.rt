//! When an account passes frames.
ghost use Rattle.element_bounds.specs.Passages.{ArePassagesMetered, ArePassagesPaced};

/// Frames that an account passes are paced: n of them from t to u have n * BAG <= BAG + jitter + (u - t). The account counts frames, or bytes of
/// which no frame has fewer than the greatest. It is in whatever state, and gets frames at moments that do not fall (`paced`). If it counts bytes,
/// those that pass from t to u have b bytes together with b * BAG <= Smax * (BAG + jitter + (u - t)), whatever sizes they have (`metered`).
pub fn passages_law()
    ensures paced { ArePassagesPaced }
    ensures metered { ArePassagesMetered }
{}
