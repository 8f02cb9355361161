//! Polynomials, their roots, interpolation and combinations over any carrier that has the laws of a field of characteristic 2.
//!
//! Laws only, each the contract of a function that does nothing; the definitions stand in specs/. The fields of bytes and of columns
//! are such carriers. `A` is a carrier's values, `K` what may be added and multiplied, and `inverse` inverts everything but zero.
//!
//! - roots: `few_roots`, `one_polynomial`
//! - interpolation: `through_points`, `through_only`, `recovered`
//! - Lagrange's form of it: `lagrange_form`, `coefficient_weight`, `coefficient_none`, `by_way`
//! - combinations: `composed`
#![tactic(auto)]

ghost use Rattle.algebra.specs.Carrier.{Carrier, Laws, Inverts};
ghost use Rattle.algebra.specs.Combination.{Space, SpaceLaws};
ghost use Rattle.algebra.specs.Stated.{FewRoots, OnePolynomial, ThroughPoints, ThroughOnly, KnownEverywhere, LagrangeForm, CountsItsWeight, OthersCountNothing, WeightByWay, Composes};

/// A polynomial with c coefficients that are not all zero has at most c - 1 different roots.
///
/// By division with remainder by x - r for each root r, as there are no zero divisors.
pub fn few_roots<A>()
    ensures { (K : Carrier A) → Laws K → FewRoots K }
{}

/// Two polynomials with equally many coefficients, no more than there are different points at which they agree, are the same.
pub fn one_polynomial<A>()
    ensures { (K : Carrier A) → Laws K → OnePolynomial K }
{}

/// The polynomial that Newton's divided differences make has, at each of the points, the value given there.
pub fn through_points<A>()
    ensures { (K : Carrier A) → Laws K → (inverse : A → A) → Inverts K inverse → ThroughPoints K inverse }
{}

/// Whatever has a coefficient for each point, and those values, is that polynomial.
pub fn through_only<A>()
    ensures { (K : Carrier A) → Laws K → (inverse : A → A) → Inverts K inverse → ThroughOnly K inverse }
{}

/// A polynomial is known everywhere from its values at as many different points as it has coefficients.
pub fn recovered<A>()
    ensures { (K : Carrier A) → Laws K → (inverse : A → A) → Inverts K inverse → KnownEverywhere K inverse }
{}

/// The value at t of the polynomial through points is the combination of its values there by Lagrange's weights at t.
pub fn lagrange_form<A>()
    ensures { (K : Carrier A) → Laws K → (inverse : A → A) → Inverts K inverse → LagrangeForm K inverse }
{}

/// How much the value at a point counts at t, in closed form: the product of (t - q) / (p - q) over the other points q.
pub fn coefficient_weight<A>()
    ensures { (K : Carrier A) → Laws K → (inverse : A → A) → Inverts K inverse → CountsItsWeight K inverse }
{}

/// What is none of the points counts nothing.
pub fn coefficient_none<A>()
    ensures { (K : Carrier A) → Laws K → (inverse : A → A) → Inverts K inverse → OthersCountNothing K inverse }
{}

/// What points say of t by way of as many others is what they say of t.
pub fn by_way<A>()
    ensures { (K : Carrier A) → Laws K → (inverse : A → A) → Inverts K inverse → WeightByWay K inverse }
{}

/// A combination of combinations is the combination by the combined coefficients, in any space over the
/// carrier.
///
/// P and Q are what the two combinations are numbered by.
pub fn composed<A, B, P, Q>()
    ensures { (K : Carrier A) → Laws K → (S : Space A B) → SpaceLaws K S → Composes K S P Q }
{}
