//! What holds of pictures' texts for all pictures.
ghost use Rattle.std.specs.Prelude.{◌≡◌, ℕ, ◌++◌, List, length};
ghost use Rattle.icet_scene_model.specs.ReadPicture.{PictureView, BeginsWith, DrawnPicture, IsDrawn, drawn_picture, drawn_text};

/// What is written of a picture begins with its size and its finished samples, whatever follows.
pub fn pictures_are_read_again()
    ensures { (d : DrawnPicture) (more : List ℕ) → IsDrawn d → BeginsWith (drawn_text d ++ more) (drawn_picture d) (length (drawn_text d)) }
{}

/// One picture at most begins a text.
pub fn one_picture_begins()
    ensures { (bytes : List ℕ) (p q : PictureView) (m n : ℕ) → BeginsWith bytes p m → BeginsWith bytes q n → (p ≡ q) × (m ≡ n) }
{}
