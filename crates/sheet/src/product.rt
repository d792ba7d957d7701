//! What is offered.
ghost use Rattle.std.specs.Prelude.{◌≡◌, Some};
ghost use Rattle.sheet.specs.Sheet.{dmo as dmo_of, domax as domax_of};
ghost use Rattle.sheet.specs.Product.{product_text};
ghost use Rattle.sheet.specs.Read.{product_of};

use std::fmt;

/// What stands after `DMO` on a sheet of the rapid reserve.
const RAPID_DMO: u32 = 13;

/// What stands after `DMO` on a sheet of the complementary reserve.
const COMPLEMENTARY_DMO: u32 = 30;

/// What stands after `DOmax` on a sheet of the rapid reserve.
const RAPID_DOMAX: u32 = 120;

/// What stands after `DOmax` on a sheet of the complementary reserve.
const COMPLEMENTARY_DOMAX: u32 = 90;

/// The two kinds of reserve.
#[derive(Clone, Copy, Debug, PartialEq, Eq)]
pub enum Product {
    /// RR, the rapid reserve.
    Rapid,
    /// RC, the complementary reserve.
    Complementary,
}

impl Product {
    /// What stands after `DMO` on its sheets.
    pub(crate) fn dmo(self) -> u32
        ensures { result ≡ dmo_of self }
    {
        match self {
            Product::Rapid => RAPID_DMO,
            Product::Complementary => COMPLEMENTARY_DMO,
        }
    }

    /// The product on whose sheets this number stands after `DMO`, if there is one.
    pub(crate) fn with_dmo(dmo: u64) -> Option<Product>
        ensures { result ≡ product_of dmo }
    {
        [Product::Rapid, Product::Complementary]
            .into_iter()
            .find(|product| u64::from(product.dmo()) == dmo)
    }

    /// What stands after `DOmax` on its sheets.
    pub(crate) fn domax(self) -> u32
        ensures { result ≡ domax_of self }
    {
        match self {
            Product::Rapid => RAPID_DOMAX,
            Product::Complementary => COMPLEMENTARY_DOMAX,
        }
    }

    /// Its short name.
    pub fn text(self) -> &'static str
        ensures { result.now ≡ product_text self }
    {
        match self {
            Product::Rapid => "RR",
            Product::Complementary => "RC",
        }
    }
}

/// A product is printed by its short name.
impl fmt::Display for Product {
    ghost output = { λ product. Some (product_text product) };

    fn fmt<W: fmt::Write>(&self, f: &mut fmt::Formatter<W>) -> fmt::Result {
        f.write_str(self.text())
    }
}
