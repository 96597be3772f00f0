//! What a file gives: its text, or why it can't be read.

ghost use Rattle.std.specs.Prelude.{◌≡◌};
ghost use Rattle.sva_several.specs.Searches as searches;

/// Why a file can't be read.
#[derive(Clone, Copy, PartialEq, Eq)]
pub enum Lack {
    /// There is none of that name.
    Missing,
    /// Who asks may not read it.
    Forbidden,
    /// It is a folder.
    Folder,
    /// Opening it or reading it failed.
    Broken,
}

/// What a file gives.
#[derive(Drop)]
pub enum Given {
    /// Its text.
    Text(Vec<u8>),
    /// It can't be read.
    Unread(Lack),
}

/// What is told of a file that can't be read, behind its name and `: `.
pub fn lack_words(lack: Lack) -> &'static str
    ensures { result.now ≡ searches.lack_text lack }
{
    match lack {
        Lack::Missing => "error: can't be read: no such file\n",
        Lack::Forbidden => "error: can't be read: no permission\n",
        Lack::Folder => "error: can't be read: a folder\n",
        Lack::Broken => "error: can't be read: reading it failed\n",
    }
}
