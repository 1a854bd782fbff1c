//! Laws of the directory calls, whatever the directories.
ghost use Rattle.std.specs.Prelude.{◌≡◌, ℕ, List, None};
ghost use Rattle.md_dirs.specs.State.{State, IsSound};
ghost use Rattle.md_dirs.specs.Calls.{create, append, link, rename, unlink, list};
ghost use Rattle.md_dirs.specs.Image.{put, image_state, image_refusal};
ghost use Rattle.md_dirs.specs.Laws.{KeepsSound};
ghost use Rattle.md_dirs.specs.declared.paths.Path.{Path};
ghost use Rattle.md_dirs.specs.declared.paths.Place.{Place};
ghost use Rattle.md_dirs.specs.declared.image.ImageFile.{ImageFile};

/// Names and files belong together: where each name lies in a folder that is there and is that of a file that is there, and
/// each file has a name, this holds after every call as well, and it holds of the directories of each image. So no name
/// dangles, and nothing is kept that has no name.
pub fn names_and_files_belong_together()
    ensures create { (path : Path) (now : ℕ) → KeepsSound (create path now) }
    ensures append { (path : Path) (bytes : List ℕ) (now : ℕ) → KeepsSound (append path bytes now) }
    ensures link { (old new : Path) → KeepsSound (link old new) }
    ensures rename { (old new : Path) → KeepsSound (rename old new) }
    ensures unlink { (path : Path) → KeepsSound (unlink path) }
    ensures list { (folder : ℕ) (place : Place) → KeepsSound (list folder place) }
    ensures image { (folders : ℕ) (files : List ImageFile) → image_refusal folders files ≡ None → IsSound (image_state folders files) }
{}

/// A file of an image is what a create and one append of its bytes make at the moment of its stamp.
pub fn an_image_file_is_created_and_appended()
    ensures { (file : ImageFile) (s : State) → (put file).after s ≡ (append file.path file.bytes file.stamp).after ((create file.path file.stamp).after s) }
{}
