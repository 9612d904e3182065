//! A release, and what a reader is shown.
ghost use Rattle.std.specs.Prelude.{◌≡◌, []};
ghost use Rattle.io_image.specs.Releases.{shown, view_of};

use il_model::OutImage;

/// An output image with the number of the request that it answers, which is above 0.
#[derive(Clone, Copy, PartialEq, Eq)]
pub struct Release {
    pub number: u64,
    pub image: OutImage,
}

/// What a reader is shown: the last release of some list, or the safe image and 0 where the list is empty.
#[derive(Clone, Copy, Debug, PartialEq, Eq)]
pub struct View {
    pub number: u64,
    pub image: OutImage,
}

/// The safe image and 0.
pub(crate) fn view_of_none() -> View
    ensures { result ≡ shown [] }
{
    View {
        number: 0,
        image: OutImage::safe(),
    }
}

/// The view of a list that ends with this release.
pub(crate) fn view_of(release: &Release) -> View
    ensures { result ≡ view_of release.now }
{
    View {
        number: release.number,
        image: release.image,
    }
}
