//! The values of core text.

use crate::error_value::{put_clause_value, put_library_value, put_tokens};
use crate::text::Text;
use crate::value::{put_end, put_name, put_names, put_optional_ref, put_optional_spot, put_spot};
use aadl_syntax::{
    Alias, Connection, ConnectionKind, Decl, Ends, Feature, FeatureKind, PackageUnit, Subcomponent,
    Unit,
};

/// Writes the units of a file.
pub fn put_units(units: &[Unit], out: &mut Text) {
    for unit in units {
        match unit {
            Unit::Package(package) => put_package(package, out),
            Unit::PropertySet(name, spot) => {
                out.put(b"property set ");
                put_name(name, spot, out);
                out.put(b"\n");
            }
        }
    }
}

fn put_package(package: &PackageUnit, out: &mut Text) {
    out.put(b"package ");
    put_names(&package.name, b"::", out);
    put_spot(&package.spot, out);
    out.put(b"\n");
    for alias in package.aliases.items() {
        put_alias(alias, out);
    }
    for decl in package.decls.items() {
        put_decl(decl, out);
    }
    put_library_value(&package.library, out);
}

fn put_alias(alias: &Alias, out: &mut Text) {
    out.put(b"alias ");
    put_name(&alias.name, &alias.spot, out);
    out.put(if alias.package { b" package " } else { b" " });
    put_names(&alias.names, b"::", out);
    out.put(b"\n");
}

fn put_decl(decl: &Decl, out: &mut Text) {
    out.put(b"classifier ");
    out.put(decl.name.text());
    if let Some(item) = &decl.item {
        out.put(b".");
        out.put(item.text());
    }
    put_spot(&decl.spot, out);
    put_optional_ref(b" extends ", &decl.extends, out);
    put_optional_spot(b" binds", &decl.binds, out);
    put_optional_spot(b" prototypes", &decl.prototypes, out);
    out.put(b"\n");
    put_members(decl, out);
    for tokens in decl.properties.items() {
        out.put(b"properties");
        put_tokens(tokens, out);
        out.put(b"\n");
    }
    for clause in decl.clauses.items() {
        put_clause_value(clause, out);
    }
}

fn put_members(decl: &Decl, out: &mut Text) {
    for feature in decl.features.items() {
        put_feature(feature, out);
    }
    for subcomponent in decl.subcomponents.items() {
        put_subcomponent(subcomponent, out);
    }
    for connection in decl.connections.items() {
        put_connection(connection, out);
    }
}

fn put_refined(refined: bool, out: &mut Text) {
    if refined {
        out.put(b" refined");
    }
}

fn put_feature(feature: &Feature, out: &mut Text) {
    out.put(b"feature ");
    put_name(&feature.name, &feature.spot, out);
    put_refined(feature.refined, out);
    out.put(match feature.kind {
        FeatureKind::Inward => b" in",
        FeatureKind::Outward => b" out",
        FeatureKind::Both => b" in out",
        FeatureKind::Access => b" access",
        FeatureKind::Group => b" group",
    });
    put_optional_spot(b" array", &feature.array, out);
    out.put(b"\n");
}

fn put_subcomponent(subcomponent: &Subcomponent, out: &mut Text) {
    out.put(b"subcomponent ");
    put_name(&subcomponent.name, &subcomponent.spot, out);
    put_refined(subcomponent.refined, out);
    put_optional_ref(b" ", &subcomponent.classifier, out);
    put_optional_spot(b" array", &subcomponent.array, out);
    put_optional_spot(b" binds", &subcomponent.binds, out);
    out.put(b"\n");
}

fn put_connection(connection: &Connection, out: &mut Text) {
    out.put(b"connection ");
    put_name(&connection.name, &connection.spot, out);
    put_refined(connection.refined, out);
    match connection.kind {
        ConnectionKind::Plain => {}
        ConnectionKind::Access => out.put(b" access"),
        ConnectionKind::Group => out.put(b" group"),
    }
    if let Some(ends) = &connection.ends {
        put_ends(ends, out);
    }
    out.put(b"\n");
}

fn put_ends(ends: &Ends, out: &mut Text) {
    out.put(b" ");
    put_end(&ends.from, out);
    out.put(if ends.both { b" <-> " } else { b" -> " });
    put_end(&ends.to, out);
}
